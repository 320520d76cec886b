//! The value that a `switch` decides by, and its cases.
//! Each label is looked up once, in a table of those before it.

ghost use Rattle.std.specs.Prelude.{◌≡◌, ◌++◌, [], Some, false, map, option_map, OnOk, IfOk};
ghost use Rattle.jv_tree.specs.View.{expr_of, group_of, groups_of};
ghost use Rattle.jv_rules.specs.Conditions.{cases};
ghost use Rattle.jv_rules.specs.Typing.{type_of};
ghost use Rattle.jv_rules.specs.inner.Deciding.{is_case_of};
ghost use Rattle.jv_types.specs.Tables.{program_in};
ghost use Rattle.jv_types.specs.inner.View.{type_seen};
ghost use Rattle.jv_types.specs.inner.Scopes.{scope_seen};
ghost use Rattle.jv_types.specs.inner.Stating.{Answers, bad_case, cases_told, choice_told};

use crate::blame::note;
use crate::exprs::check_expr;
use crate::fields::has_constant;
use crate::judged::Wrong;
use crate::jumps::label_text;
use crate::locals::Locals;
use crate::name_table::Table;
use crate::scope::Scope;
use crate::value_type::ValueType;
use crate::values::{Wanted, wanted_misfit};
use jv_rules::Condition;
use jv_tree::{Expr, Group};
use mg_text::{Memory, Names, Place, Text};
use std::alloc::Global;

// Adds the labels of a group.
fn add_labels<'a>(all: &mut Vec<&'a Option<Text>>, labels: &'a [Option<Text>]) -> Result<(), Memory>
    ensures { OnOk result (map (λ l. l.now) all.new.items ≡ map (λ l. l.now) all.old.items ++ labels.now) }
{
    for label in labels {
        all.push(label)?;
    }
    Ok(())
}

// The cases and defaults of a switch, in the order of the text.
fn labels_of<'a>(alloc: Global, groups: &'a [Group]) -> Result<Vec<&'a Option<Text>>, Memory>
    ensures { IfOk result (λ v. map (λ l. l.now) v.items ≡ cases (groups_of (map group_of groups.now))) }
{
    let mut all = Vec::new(alloc);
    for group in groups {
        add_labels(&mut all, group.labels.as_slice())?;
    }
    Ok(all)
}

// Whether a case is a constant of the enum that is decided by.
fn is_case_of(table: &Table<'_>, ty: ValueType<'_>, name: &str) -> bool
    ensures { result ≡ is_case_of (program_in table.now) (Some (type_seen ty.entry)) name.now }
{
    match ty {
        ValueType::Enum(of) => has_constant(table, of, name),
        _ => false,
    }
}

// The first label that was met, stands twice or is no constant of the enum. That of a default is
// empty.
fn label_met<'a>(
    met: &mut Names,
    table: &Table<'_>,
    ty: ValueType<'_>,
    labels: &[&'a Option<Text>],
) -> Result<Option<&'a str>, Memory>
    ensures { IfOk result (λ o. option_map (λ n. n.now) o ≡ bad_case (is_case_of (program_in table.now) (Some (type_seen ty.entry))) met.old
        false (map (λ l. l.now) labels.now)) }
{
    let mut has_default = false;
    for label in labels {
        match label_text(label) {
            None => {
                if has_default {
                    return Ok(Some(""));
                }
                has_default = true;
            }
            Some(name) => {
                let fresh = note(met, name)?;
                if !fresh {
                    return Ok(Some(name));
                }
                if !is_case_of(table, ty, name) {
                    return Ok(Some(name));
                }
            }
        }
    }
    Ok(None)
}

// Judges the cases and defaults of a switch.
fn check_cases<'a>(
    scope: &Scope<'_, 'a>,
    locals: &Locals<'a>,
    place: Place,
    value: &'a Expr,
    ty: ValueType<'a>,
    groups: &'a [Group],
) -> Result<(), Wrong<'a>>
    requires { type_of (scope_seen scope.now locals.now) (expr_of value.now) ≡ Some (type_seen ty) }
    ensures { Answers (cases_told (scope_seen scope.now locals.now) place (expr_of value.now) (groups_of (map group_of groups.now)))
        result }
{
    let labels = labels_of(scope.alloc, groups)?;
    let mut met = Names::new(scope.alloc);
    let bad = label_met(&mut met, scope.table, ty, labels.as_slice())?;
    match bad {
        Some(name) => Err(Wrong::Fault(Condition::BadLabel, place, name)),
        None => Ok(()),
    }
}

/// Judges the value that a switch decides by, and the labels of its groups.
pub(crate) fn check_choice<'a>(
    scope: &Scope<'_, 'a>,
    locals: &Locals<'a>,
    place: Place,
    value: &'a Expr,
    groups: &'a [Group],
) -> Result<(), Wrong<'a>>
    ensures { Answers (choice_told (scope_seen scope.now locals.now) place (expr_of value.now) (groups_of (map group_of groups.now)))
        result }
{
    let checked = check_expr(scope, locals, value)?;
    match wanted_misfit(Wanted::AnyEnum, value, checked.ty) {
        Some(at) => Err(Wrong::Fault(Condition::TypeMismatch, at, "")),
        None => check_cases(scope, locals, place, value, checked.ty, groups),
    }
}
