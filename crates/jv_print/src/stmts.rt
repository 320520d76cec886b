//! Statements. A block goes on in the line, another branch or body stands in the next one.

ghost use Rattle.std.specs.Prelude.{◌≡◌, ◌++◌, ◌+◌, OnOk, IfOk, string_bytes, map, option_map, codes};
ghost use Rattle.jv_tree.specs.View.{expr_of, stmt_of, stmts_of, group_of, groups_of};
ghost use Rattle.jv_print.specs.Layout.{type_text, expr_text, stmt_text, body_text, lines, group_lines, case_lines, case_text, braced};
ghost use Rattle.jv_print.specs.Layout.{label_text, target_text, value_text, body_start, body_level, behind, is_block};

use crate::exprs::put_expr;
use crate::words::type_text;
use crate::writing::{put, put_indent};
use jv_tree::{Expr, Group, Stmt, StmtKind};
use mg_text::{Memory, Text};
use ts_tree::TypeName;

/// Writes a statement that begins in a line at this level, without the end of its last line.
#[tactic(auto, using(crate::proofs::Laid::laid))]
#[cycle(stmts)]
pub fn put_stmt(out: &mut String, level: u32, stmt: &Stmt) -> Result<(), Memory>
    ensures { OnOk result (string_bytes out.new ≡ string_bytes out.old ++ stmt_text level (stmt_of stmt.now)) }
{
    match &stmt.kind {
        StmtKind::Block(body, _) => put_block(out, level, body.as_slice()),
        StmtKind::Empty => put(out, &[";"]),
        StmtKind::Local(ty, name, value) => put_local(out, ty, name.as_str(), value),
        StmtKind::Assign(target, value) => put_assign(out, target, value),
        StmtKind::If(test, then, other) => {
            put_between(out, "if (", test, ")")?;
            put_body(out, level, then)?;
            let Some(other) = other else {
                return Ok(());
            };
            put_behind(out, is_block(then), level)?;
            put(out, &["else"])?;
            put_body(out, level, other)
        }
        StmtKind::While(label, test, body) => {
            put_while(out, label, test)?;
            put_body(out, level, body)
        }
        StmtKind::Do(label, body, test) => {
            put_do(out, label)?;
            put_body(out, level, body)?;
            put_behind(out, is_block(body), level)?;
            put_between(out, "while (", test, ");")
        }
        StmtKind::Switch(value, groups, _) => {
            put_between(out, "switch (", value, ") ")?;
            put_groups(out, level, groups.as_slice())
        }
        StmtKind::Break(label) => put_jump(out, "break", label),
        StmtKind::Continue(label) => put_jump(out, "continue", label),
        StmtKind::Return(value) => put_return(out, value),
        StmtKind::Print(value) => put_between(out, "System.out.println(", value, ");"),
        StmtKind::Eval(value) => put_between(out, "", value, ";"),
    }
}

// Writes a branch or a body.
#[tactic(auto, using(crate::proofs::Laid::laid))]
#[cycle(stmts)]
fn put_body(out: &mut String, level: u32, body: &Stmt) -> Result<(), Memory>
    ensures { OnOk result (string_bytes out.new ≡ string_bytes out.old ++ body_text level (stmt_of body.now)) }
{
    let inside = put_start(out, is_block(body), level)?;
    put_stmt(out, inside, body)
}

/// Writes statements between braces, one level further in.
#[tactic(auto, using(crate::proofs::Laid::laid))]
#[cycle(stmts)]
pub fn put_block(out: &mut String, level: u32, body: &[Stmt]) -> Result<(), Memory>
    ensures { OnOk result (string_bytes out.new ≡ string_bytes out.old
        ++ braced level (lines (level + 1) (stmts_of (map stmt_of body.now)))) }
{
    let inside = further(level)?;
    put(out, &["{\n"])?;
    put_lines(out, inside, body)?;
    put_indent(out, level)?;
    put(out, &["}"])
}

// Writes the lines of statements.
#[tactic(auto, using(crate::proofs::Laid::line_steps))]
#[cycle(stmts)]
fn put_lines(out: &mut String, level: u32, body: &[Stmt]) -> Result<(), Memory>
    ensures { OnOk result (string_bytes out.new ≡ string_bytes out.old ++ lines level (stmts_of (map stmt_of body.now))) }
{
    for stmt in body {
        put_indent(out, level)?;
        put_stmt(out, level, stmt)?;
        put(out, &["\n"])?;
    }
    Ok(())
}

// Writes the groups of a switch between braces.
#[tactic(auto, using(crate::proofs::Laid::laid))]
#[cycle(stmts)]
fn put_groups(out: &mut String, level: u32, groups: &[Group]) -> Result<(), Memory>
    ensures { OnOk result (string_bytes out.new ≡ string_bytes out.old
        ++ braced level (group_lines (level + 1) (groups_of (map group_of groups.now)))) }
{
    let inside = further(level)?;
    put(out, &["{\n"])?;
    put_group_lines(out, inside, groups)?;
    put_indent(out, level)?;
    put(out, &["}"])
}

// Writes the lines of groups: labels, and statements one level further in.
#[tactic(auto, using(crate::proofs::Laid::group_steps))]
#[cycle(stmts)]
fn put_group_lines(out: &mut String, level: u32, groups: &[Group]) -> Result<(), Memory>
    ensures { OnOk result (string_bytes out.new ≡ string_bytes out.old ++ group_lines level (groups_of (map group_of groups.now))) }
{
    let inside = further(level)?;
    for group in groups {
        put_case_lines(out, level, group.labels.as_slice())?;
        put_lines(out, inside, group.body.as_slice())?;
    }
    Ok(())
}

// Writes the labels of a group, each in a line.
#[tactic(auto, using(crate::proofs::Laid::case_steps))]
fn put_case_lines(out: &mut String, level: u32, labels: &[Option<Text>]) -> Result<(), Memory>
    ensures { OnOk result (string_bytes out.new ≡ string_bytes out.old ++ case_lines level labels.now) }
{
    for label in labels {
        put_indent(out, level)?;
        put_case(out, label)?;
        put(out, &["\n"])?;
    }
    Ok(())
}

// Writes the label of a group.
#[tactic(auto, using(crate::proofs::Laid::laid))]
fn put_case(out: &mut String, label: &Option<Text>) -> Result<(), Memory>
    ensures { OnOk result (string_bytes out.new ≡ string_bytes out.old ++ case_text label.now) }
{
    match label {
        None => put(out, &["default:"]),
        Some(name) => put(out, &["case ", name.as_str(), ":"]),
    }
}

// Writes the declaration of a local.
#[tactic(auto, using(crate::proofs::Laid::laid))]
fn put_local(out: &mut String, ty: &TypeName, name: &str, value: &Expr) -> Result<(), Memory>
    ensures { OnOk result (string_bytes out.new ≡ string_bytes out.old
        ++ (type_text ty.now ++ (codes " " ++ (name.now ++ (codes " = " ++ (expr_text (expr_of value.now) ++ codes ";")))))) }
{
    put(out, &[type_text(ty), " ", name, " = "])?;
    put_between(out, "", value, ";")
}

#[tactic(auto, using(crate::proofs::Laid::laid))]
fn put_assign(out: &mut String, target: &Expr, value: &Expr) -> Result<(), Memory>
    ensures { OnOk result (string_bytes out.new ≡ string_bytes out.old
        ++ (expr_text (expr_of target.now) ++ (codes " = " ++ (expr_text (expr_of value.now) ++ codes ";")))) }
{
    put_expr(out, target)?;
    put_between(out, " = ", value, ";")
}

#[tactic(auto, using(crate::proofs::Laid::laid))]
fn put_return(out: &mut String, value: &Option<Expr>) -> Result<(), Memory>
    ensures { OnOk result (string_bytes out.new ≡ string_bytes out.old
        ++ (codes "return" ++ (value_text (option_map expr_of value.now) ++ codes ";"))) }
{
    put(out, &["return"])?;
    match value {
        None => put(out, &[";"]),
        Some(value) => put_between(out, " ", value, ";"),
    }
}

// Writes what stands before the body of a `while`.
#[tactic(auto, using(crate::proofs::Laid::laid))]
fn put_while(out: &mut String, label: &Option<Text>, test: &Expr) -> Result<(), Memory>
    ensures { OnOk result (string_bytes out.new ≡ string_bytes out.old
        ++ (label_text label.now ++ (codes "while (" ++ (expr_text (expr_of test.now) ++ codes ")")))) }
{
    put_label(out, label)?;
    put_between(out, "while (", test, ")")
}

// Writes what stands before the body of a `do`.
#[tactic(auto, using(crate::proofs::Laid::laid))]
fn put_do(out: &mut String, label: &Option<Text>) -> Result<(), Memory>
    ensures { OnOk result (string_bytes out.new ≡ string_bytes out.old ++ (label_text label.now ++ codes "do")) }
{
    put_label(out, label)?;
    put(out, &["do"])
}

// Writes the label of a loop.
#[tactic(auto, using(crate::proofs::Laid::laid))]
fn put_label(out: &mut String, label: &Option<Text>) -> Result<(), Memory>
    ensures { OnOk result (string_bytes out.new ≡ string_bytes out.old ++ label_text label.now) }
{
    match label {
        None => Ok(()),
        Some(name) => put(out, &[name.as_str(), ": "]),
    }
}

// Writes a jump, with the label of the loop that it is about.
#[tactic(auto, using(crate::proofs::Laid::laid))]
fn put_jump(out: &mut String, word: &str, label: &Option<Text>) -> Result<(), Memory>
    ensures { OnOk result (string_bytes out.new ≡ string_bytes out.old ++ (word.now ++ (target_text label.now ++ codes ";"))) }
{
    match label {
        None => put(out, &[word, ";"]),
        Some(name) => put(out, &[word, " ", name.as_str(), ";"]),
    }
}

// Writes an expression, with this before and behind it.
#[tactic(auto, using(crate::proofs::Laid::laid))]
fn put_between(out: &mut String, before: &str, expr: &Expr, after: &str) -> Result<(), Memory>
    ensures { OnOk result (string_bytes out.new ≡ string_bytes out.old ++ (before.now ++ (expr_text (expr_of expr.now) ++ after.now))) }
{
    put(out, &[before])?;
    put_expr(out, expr)?;
    put(out, &[after])
}

// Writes what a branch or a body begins with. The answer is the level at which it stands.
#[tactic(auto, using(crate::proofs::Laid::laid))]
fn put_start(out: &mut String, is_block: bool, level: u32) -> Result<u32, Memory>
    ensures written { OnOk result (string_bytes out.new ≡ string_bytes out.old ++ body_start is_block level) }
    ensures inside { IfOk result (λ l. l ≡ body_level is_block level) }
{
    if is_block {
        put(out, &[" "])?;
        return Ok(level);
    }
    let inside = further(level)?;
    put(out, &["\n"])?;
    put_indent(out, inside)?;
    Ok(inside)
}

// Writes what stands between a branch or a body and the word behind it.
#[tactic(auto, using(crate::proofs::Laid::laid))]
fn put_behind(out: &mut String, is_block: bool, level: u32) -> Result<(), Memory>
    ensures { OnOk result (string_bytes out.new ≡ string_bytes out.old ++ behind is_block level) }
{
    if is_block {
        return put(out, &[" "]);
    }
    put(out, &["\n"])?;
    put_indent(out, level)
}

// One level further in.
fn further(level: u32) -> Result<u32, Memory>
    ensures { IfOk result (λ l. l ≡ level + 1) }
{
    level.checked_add(1).ok_or(Memory)
}

// Whether a statement is a block.
#[tactic(auto, using(crate::proofs::Laid::laid))]
fn is_block(stmt: &Stmt) -> bool
    ensures { result ≡ is_block (stmt_of stmt.now) }
{
    match stmt.kind {
        StmtKind::Block(_, _) => true,
        StmtKind::Empty | StmtKind::Local(_, _, _) | StmtKind::Assign(_, _) => false,
        StmtKind::If(_, _, _) | StmtKind::While(_, _, _) | StmtKind::Do(_, _, _) => false,
        StmtKind::Switch(_, _, _) | StmtKind::Break(_) | StmtKind::Continue(_) => false,
        StmtKind::Return(_) | StmtKind::Print(_) | StmtKind::Eval(_) => false,
    }
}
