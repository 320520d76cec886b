//! Types that are named: in declarations, and as the class of `new`. Each is an enum or a class
//! with a typestate; of `new` it is a class.

ghost use Rattle.std.specs.Prelude.{◌≡◌, ◌∷◌, ◌++◌, IfOk, map, option_map, flat_map};
ghost use Rattle.jv_tree.specs.View.{class_of, expr_of, exprs_of, stmt_of, stmts_of, group_of, groups_of};
ghost use Rattle.jv_meaning.specs.Program.{class_named};
ghost use Rattle.jv_rules.specs.Members.{Written, Made, mentions_in, mentions_in_args, mentions_in_value, mentions_in_stmt};
ghost use Rattle.jv_rules.specs.Members.{mentions_in_stmts, mentions_in_groups, mentions_in_member, param_mention};
ghost use Rattle.jv_rules.specs.inner.Deciding.{first_by};
ghost use Rattle.jv_types.specs.Tables.{program_in};
ghost use Rattle.jv_types.specs.inner.Blaming.{blamed_of};
ghost use Rattle.jv_types.specs.inner.Repeating.{member_seen};
ghost use Rattle.jv_types.specs.inner.Declaring.{is_usable_class, unknown_class, unknown_in_class};
ghost use Rattle.jv_types.specs.inner.Tabled.{class_in};

use crate::blame::Blamed;
use crate::entry::ClassEntry;
use crate::merged::{Member, members};
use crate::name_table::Table;
use jv_tree::{Class, Expr, ExprKind, Group, Param, Stmt, StmtKind};
use mg_text::{Memory, Place};
use std::alloc::Global;
use ts_tree::TypeName;

// Whether a class with a typestate has this name.
fn is_usable_class(table: &Table<'_>, name: &str) -> bool
    ensures { result ≡ is_usable_class (class_named (program_in table.now).files name.now) }
{
    match table.class_named(name) {
        Some(entry) => entry.class.typestate.is_some(),
        None => false,
    }
}

// A type that is written at this place, where it is unknown: no enum and no class with a typestate
// has its name.
fn unknown_type<'a>(table: &Table<'_>, place: Place, ty: &'a TypeName) -> Option<Blamed<'a>>
    ensures { option_map blamed_of result ≡ unknown_class (program_in table.now) (Written place ty.now) }
{
    match ty {
        TypeName::Void | TypeName::Int | TypeName::Boolean | TypeName::Text => None,
        TypeName::Named(name) => {
            let name = name.as_str();
            if table.enum_named(name).is_some() {
                return None;
            }
            if is_usable_class(table, name) {
                return None;
            }
            Some(Blamed { place, name })
        }
    }
}

// The class of a `new` at this place, where it is unknown.
fn unknown_made<'a>(table: &Table<'_>, place: Place, name: &'a str) -> Option<Blamed<'a>>
    ensures { option_map blamed_of result ≡ unknown_class (program_in table.now) (Made place name.now) }
{
    if is_usable_class(table, name) {
        return None;
    }
    Some(Blamed { place, name })
}

// The first of an expression.
#[tactic(auto, using(crate::proofs::Mentioned::mentioned))]
#[cycle(mentions)]
fn unknown_in<'a>(table: &Table<'_>, expr: &'a Expr) -> Option<Blamed<'a>>
    ensures { option_map blamed_of result ≡ first_by (unknown_class (program_in table.now)) (mentions_in (expr_of expr.now)) }
{
    match expr.kind {
        ExprKind::Int(_) | ExprKind::Truth(_) | ExprKind::Text(_) | ExprKind::Null => None,
        ExprKind::This | ExprKind::Name(_) => None,
        ExprKind::Member(ref of, _) => unknown_in(table, of),
        ExprKind::Neg(ref of) => unknown_in(table, of),
        ExprKind::Not(ref of) => unknown_in(table, of),
        ExprKind::Binary(_, ref left, ref right) => {
            let found = unknown_in(table, left);
            if found.is_some() {
                return found;
            }
            unknown_in(table, right)
        }
        ExprKind::Call(_, ref args) => unknown_in_args(table, args.as_slice()),
        ExprKind::MethodCall(ref of, _, ref args) => {
            let found = unknown_in(table, of);
            if found.is_some() {
                return found;
            }
            unknown_in_args(table, args.as_slice())
        }
        ExprKind::New(ref name) => unknown_made(table, expr.place, name.as_str()),
    }
}

// The first of arguments.
#[tactic(auto, using(crate::proofs::Mentioned::arg_steps))]
#[cycle(mentions)]
fn unknown_in_args<'a>(table: &Table<'_>, args: &'a [Expr]) -> Option<Blamed<'a>>
    ensures { option_map blamed_of result ≡ first_by (unknown_class (program_in table.now))
        (mentions_in_args (exprs_of (map expr_of args.now))) }
{
    for item in args {
        let found = unknown_in(table, item);
        if found.is_some() {
            return found;
        }
    }
    None
}

// The first of a value, where there is one.
fn unknown_in_value<'a>(table: &Table<'_>, value: &'a Option<Expr>) -> Option<Blamed<'a>>
    ensures { option_map blamed_of result ≡ first_by (unknown_class (program_in table.now))
        (mentions_in_value (option_map expr_of value.now)) }
{
    match value {
        Some(expr) => unknown_in(table, expr),
        None => None,
    }
}

// The first of two expressions.
#[tactic(auto, using(crate::proofs::Mentioned::mentioned))]
fn unknown_in_both<'a>(table: &Table<'_>, first: &'a Expr, second: &'a Expr) -> Option<Blamed<'a>>
    ensures { option_map blamed_of result ≡ first_by (unknown_class (program_in table.now))
        (mentions_in (expr_of first.now) ++ mentions_in (expr_of second.now)) }
{
    let found = unknown_in(table, first);
    if found.is_some() {
        return found;
    }
    unknown_in(table, second)
}

// The first of the declaration of a local.
#[tactic(auto, using(crate::proofs::Mentioned::mentioned))]
fn unknown_in_local<'a>(
    table: &Table<'_>,
    place: Place,
    ty: &'a TypeName,
    value: &'a Expr,
) -> Option<Blamed<'a>>
    ensures { option_map blamed_of result ≡ first_by (unknown_class (program_in table.now))
        (Written place ty.now ∷ mentions_in (expr_of value.now)) }
{
    let found = unknown_type(table, place, ty);
    if found.is_some() {
        return found;
    }
    unknown_in(table, value)
}

// The first of a statement.
#[tactic(auto, using(crate::proofs::Mentioned::mentioned))]
#[cycle(mentioned)]
fn unknown_in_stmt<'a>(table: &Table<'_>, stmt: &'a Stmt) -> Option<Blamed<'a>>
    ensures { option_map blamed_of result ≡ first_by (unknown_class (program_in table.now)) (mentions_in_stmt (stmt_of stmt.now)) }
{
    match stmt.kind {
        StmtKind::Block(ref body, _) => unknown_in_stmts(table, body.as_slice()),
        StmtKind::Empty | StmtKind::Break(_) | StmtKind::Continue(_) => None,
        StmtKind::Local(ref ty, _, ref value) => unknown_in_local(table, stmt.place, ty, value),
        StmtKind::Assign(ref target, ref value) => unknown_in_both(table, target, value),
        StmtKind::If(ref test, ref then, ref other) => {
            let found = unknown_in(table, test);
            if found.is_some() {
                return found;
            }
            let found = unknown_in_stmt(table, then);
            if found.is_some() {
                return found;
            }
            let Some(other) = other else {
                return None;
            };
            unknown_in_stmt(table, other)
        }
        StmtKind::While(_, ref test, ref body) => {
            let found = unknown_in(table, test);
            if found.is_some() {
                return found;
            }
            unknown_in_stmt(table, body)
        }
        StmtKind::Do(_, ref body, ref test) => {
            let found = unknown_in_stmt(table, body);
            if found.is_some() {
                return found;
            }
            unknown_in(table, test)
        }
        StmtKind::Switch(ref value, ref groups, _) => {
            let found = unknown_in(table, value);
            if found.is_some() {
                return found;
            }
            unknown_in_groups(table, groups.as_slice())
        }
        StmtKind::Return(ref value) => unknown_in_value(table, value),
        StmtKind::Print(ref value) => unknown_in(table, value),
        StmtKind::Eval(ref value) => unknown_in(table, value),
    }
}

// The first of statements.
#[tactic(auto, using(crate::proofs::Mentioned::stmt_steps))]
#[cycle(mentioned)]
fn unknown_in_stmts<'a>(table: &Table<'_>, body: &'a [Stmt]) -> Option<Blamed<'a>>
    ensures { option_map blamed_of result ≡ first_by (unknown_class (program_in table.now))
        (mentions_in_stmts (stmts_of (map stmt_of body.now))) }
{
    for item in body {
        let found = unknown_in_stmt(table, item);
        if found.is_some() {
            return found;
        }
    }
    None
}

// The first of the groups of a switch.
#[tactic(auto, using(crate::proofs::Mentioned::group_steps))]
#[cycle(mentioned)]
fn unknown_in_groups<'a>(table: &Table<'_>, groups: &'a [Group]) -> Option<Blamed<'a>>
    ensures { option_map blamed_of result ≡ first_by (unknown_class (program_in table.now))
        (mentions_in_groups (groups_of (map group_of groups.now))) }
{
    for item in groups {
        let found = unknown_in_stmts(table, item.body.as_slice());
        if found.is_some() {
            return found;
        }
    }
    None
}

// The first of parameters.
fn unknown_in_params<'a>(table: &Table<'_>, params: &'a [Param]) -> Option<Blamed<'a>>
    ensures { option_map blamed_of result ≡ first_by (unknown_class (program_in table.now)) (map param_mention params.now) }
{
    for item in params {
        let found = unknown_type(table, item.place, &item.ty);
        if found.is_some() {
            return found;
        }
    }
    None
}

// The first of a member.
#[tactic(auto, using(crate::proofs::Mentioned::mentioned))]
fn unknown_in_member<'a>(table: &Table<'_>, member: Member<'a>) -> Option<Blamed<'a>>
    ensures { option_map blamed_of result ≡ first_by (unknown_class (program_in table.now))
        (mentions_in_member (member_seen member.entry)) }
{
    match member {
        Member::Field(field) => {
            let found = unknown_type(table, field.place, &field.ty);
            if found.is_some() {
                return found;
            }
            unknown_in_value(table, &field.value)
        }
        Member::Method(method) => {
            let found = unknown_type(table, method.place, &method.result);
            if found.is_some() {
                return found;
            }
            let found = unknown_in_params(table, method.params.as_slice());
            if found.is_some() {
                return found;
            }
            unknown_in_stmts(table, method.body.as_slice())
        }
    }
}

// The first of members.
#[tactic(auto, using(crate::proofs::Mentioned::mentioned))]
fn unknown_in_members<'a>(table: &Table<'_>, members: &[Member<'a>]) -> Option<Blamed<'a>>
    ensures { option_map blamed_of result ≡ first_by (unknown_class (program_in table.now))
        (flat_map mentions_in_member (map member_seen members.now)) }
{
    for item in members {
        let found = unknown_in_member(table, *item);
        if found.is_some() {
            return found;
        }
    }
    None
}

// The first of a class.
fn unknown_in_class<'a>(
    alloc: Global,
    table: &Table<'_>,
    class: &'a Class,
) -> Result<Option<Blamed<'a>>, Memory>
    ensures { IfOk result (λ o. option_map blamed_of o ≡ unknown_in_class (program_in table.now) (class_of class.now)) }
{
    let members = members(alloc, class)?;
    Ok(unknown_in_members(table, members.as_slice()))
}

/// The first type that is unknown where it is named.
pub(crate) fn unknown_class<'a>(
    alloc: Global,
    table: &Table<'_>,
    entries: &[ClassEntry<'a>],
) -> Result<Option<Blamed<'a>>, Memory>
    ensures { IfOk result (λ o. option_map blamed_of o ≡ first_by (unknown_in_class (program_in table.now)) (map class_in entries.now)) }
{
    for item in entries {
        let found = unknown_in_class(alloc, table, item.class)?;
        if found.is_some() {
            return Ok(found);
        }
    }
    Ok(None)
}
