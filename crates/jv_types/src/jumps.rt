//! `break`, `continue` and labels, by the loops and switches around.

ghost use Rattle.std.specs.Prelude.{◌≡◌, option_map};
ghost use Rattle.std.specs.List.{list_any};
ghost use Rattle.jv_tree.specs.Source.{Break, Continue};
ghost use Rattle.jv_rules.specs.inner.Deciding.{is_loop, has_label, can_break, can_continue};
ghost use Rattle.jv_rules.specs.Conditions.{label_name};
ghost use Rattle.jv_types.specs.inner.Scopes.{around_seen, scope_seen};
ghost use Rattle.jv_types.specs.inner.Stating.{Answers, stmt_fault, label_told};

use crate::judged::Wrong;
use crate::locals::Locals;
use crate::scope::{Around, Scope};
use jv_rules::Condition;
use mg_text::{Place, Text};

// Whether a loop of this label is around.
fn is_within_label(around: &Around<'_>, label: &str) -> bool
    ensures { result ≡ list_any (has_label label.now) (around_seen around.now) }
{
    match around {
        Around::Outside => false,
        Around::Switch(outer) => is_within_label(outer, label),
        Around::Loop(None, outer) => is_within_label(outer, label),
        Around::Loop(Some(own), outer) => {
            if *own == label {
                return true;
            }
            is_within_label(outer, label)
        }
    }
}

// Whether a loop is around.
fn is_within_loop(around: &Around<'_>) -> bool
    ensures { result ≡ list_any is_loop (around_seen around.now) }
{
    match around {
        Around::Outside => false,
        Around::Switch(outer) => is_within_loop(outer),
        Around::Loop(_, _) => true,
    }
}

// Whether `break` has a target.
fn can_break(around: &Around<'_>, label: &Option<Text>) -> bool
    ensures { result ≡ can_break (around_seen around.now) label.now }
{
    match label {
        Some(label) => is_within_label(around, label.as_str()),
        None => !matches!(around, Around::Outside),
    }
}

// Whether `continue` has a target.
fn can_continue(around: &Around<'_>, label: &Option<Text>) -> bool
    ensures { result ≡ can_continue (around_seen around.now) label.now }
{
    match label {
        Some(label) => is_within_label(around, label.as_str()),
        None => is_within_loop(around),
    }
}

/// The name of a label, where there is one.
pub(crate) fn label_text(label: &Option<Text>) -> Option<&str>
    ensures { option_map (λ n. n.now) result ≡ label.now }
{
    match label {
        Some(label) => Some(label.as_str()),
        None => None,
    }
}

// The name of a label, which is empty where there is none.
fn label_name(label: &Option<Text>) -> &str
    ensures { result.now ≡ label_name label.now }
{
    match label {
        Some(label) => label.as_str(),
        None => "",
    }
}

/// Judges `break`.
#[tactic(auto, using(crate::proofs::StmtSteps::jumps))]
pub(crate) fn check_break<'a>(
    scope: &Scope<'_, 'a>,
    locals: &Locals<'a>,
    place: Place,
    label: &'a Option<Text>,
) -> Result<(), Wrong<'a>>
    ensures { Answers (stmt_fault (scope_seen scope.now locals.now) (Break place label.now)) result }
{
    if can_break(scope.around, label) {
        return Ok(());
    }
    Err(Wrong::Fault(Condition::BadLabel, place, label_name(label)))
}

/// Judges `continue`.
#[tactic(auto, using(crate::proofs::StmtSteps::jumps))]
pub(crate) fn check_continue<'a>(
    scope: &Scope<'_, 'a>,
    locals: &Locals<'a>,
    place: Place,
    label: &'a Option<Text>,
) -> Result<(), Wrong<'a>>
    ensures { Answers (stmt_fault (scope_seen scope.now locals.now) (Continue place label.now)) result }
{
    if can_continue(scope.around, label) {
        return Ok(());
    }
    Err(Wrong::Fault(Condition::BadLabel, place, label_name(label)))
}

/// Judges the label of a loop: no loop around has it.
#[tactic(auto, using(crate::proofs::StmtSteps::jumps))]
pub(crate) fn check_label<'a>(
    scope: &Scope<'_, 'a>,
    locals: &Locals<'a>,
    place: Place,
    label: &'a Option<Text>,
) -> Result<(), Wrong<'a>>
    ensures { Answers (label_told (scope_seen scope.now locals.now) place label.now) result }
{
    match label {
        Some(label) => {
            let name = label.as_str();
            if is_within_label(scope.around, name) {
                return Err(Wrong::Fault(Condition::BadLabel, place, name));
            }
            Ok(())
        }
        None => Ok(()),
    }
}
