//! The statements that play those of a protocol.

ghost use Rattle.std.specs.Prelude.{◌≡◌, ◌++◌, [], ◌∷◌, true, false, IfOk, OnOk, map, Some as There, None};
ghost use Rattle.scr_tree.specs.Control.{falls};
ghost use Rattle.scr_tree.specs.Tree.{Nothing};
ghost use Rattle.scr_tree.specs.View.{front, statements, bodies};
ghost use Rattle.jv_tree.specs.View.{stmt_of, group_of};
ghost use Rattle.stm_client.specs.Counting.{opened};
ghost use Rattle.stm_client.specs.Client.{plays, blocks, groups, group, looping, ended, own_choice, other_choice, label_for, with_loop};
ghost use Rattle.stm_client.specs.View.{making, loops_of, end_of, end_of_branches};

use crate::labels::{Around, label_for, label_in, with_loop};
use crate::points::{About, End, Numbers};
use crate::stmts::{
    add, add_break, add_own_choice, add_part_call, block, group, looping, other_choice, passing,
};
use jv_tree::{Group, Stmt, StmtKind};
use mg_text::{List, Memory, Text};
use scr_tree::Statement;
use std::alloc::Global;

/// Appends the statements that play these, inside these loops; the next choices have these numbers.
/// The answer is the end of the protocol's statements.
#[tactic(auto, using(crate::proofs::Playing::all_steps))]
#[cycle(play)]
pub fn play(
    alloc: Global,
    about: &About<'_>,
    loops: &[Around],
    at: Numbers,
    body: &[Statement],
    out: &mut List<Stmt>,
) -> Result<End, Memory>
    ensures end { IfOk result (λ e. e ≡ end_of (making about.now).me at (statements body.now)) }
    ensures plays { OnOk result (map stmt_of out.new.items ≡ map stmt_of out.old.items
        ++ plays (making about.now) (loops_of loops.now) at (statements body.now)) }
{
    let mut end = End {
        numbers: at,
        falls: true,
    };
    for statement in body {
        let last = play_at(alloc, about, loops, end.numbers, statement, out)?;
        end = end.past(last);
    }
    Ok(end)
}

// Appends the statements that play this one.
#[tactic(auto, using(crate::proofs::Playing::alone))]
#[cycle(play)]
fn play_at(
    alloc: Global,
    about: &About<'_>,
    loops: &[Around],
    at: Numbers,
    statement: &Statement,
    out: &mut List<Stmt>,
) -> Result<End, Memory>
    ensures end { IfOk result (λ e. e ≡ end_of (making about.now).me at (front statement.now Nothing)) }
    ensures plays { OnOk result (map stmt_of out.new.items ≡ map stmt_of out.old.items
        ++ plays (making about.now) (loops_of loops.now) at (front statement.now Nothing)) }
{
    match statement {
        Statement::Message(message) => {
            let passing = passing(alloc, about.place, message)?;
            out.push(passing)?;
            Ok(End {
                numbers: at,
                falls: true,
            })
        }
        Statement::Choice {
            at: by,
            branches,
            ..
        } => {
            let branches = branches.as_slice();
            if *by == *about.local.me() {
                play_own(alloc, about, loops, at, branches, out)
            } else {
                play_other(alloc, about, loops, at, branches, out)
            }
        }
        Statement::Rec { name, body, .. } => {
            play_loop(alloc, about, loops, at, name, body.as_slice(), out)
        }
        Statement::Continue { name, .. } => {
            let label = label_in(alloc, loops, name)?;
            add(out, about.place, StmtKind::Continue(Some(label)))?;
            Ok(End {
                numbers: at,
                falls: false,
            })
        }
        Statement::Do { name, .. } => {
            add_part_call(alloc, about, name, out)?;
            add(out, about.place, StmtKind::Return(None))?;
            Ok(End {
                numbers: at,
                falls: false,
            })
        }
    }
}

// Appends an own choice.
#[tactic(auto, using(crate::proofs::Playing::alone))]
#[cycle(play)]
fn play_own(
    alloc: Global,
    about: &About<'_>,
    loops: &[Around],
    at: Numbers,
    branches: &[List<Statement>],
    out: &mut List<Stmt>,
) -> Result<End, Memory>
    ensures end { IfOk result (λ e. e ≡ end_of_branches (making about.now).me (opened true at) (bodies branches.now)) }
    ensures plays { OnOk result (map stmt_of out.new.items ≡ map stmt_of out.old.items
        ++ own_choice about.now.place at.own (blocks (making about.now) (loops_of loops.now) (opened true at) (bodies branches.now))) }
{
    let mut blocks = List::new(alloc);
    let opened = at.opened(true)?;
    let end = play_blocks(alloc, about, loops, opened, branches, &mut blocks)?;
    add_own_choice(alloc, about.place, at.own, blocks, out)?;
    Ok(end)
}

// Appends another's choice.
#[tactic(auto, using(crate::proofs::Playing::alone))]
#[cycle(play)]
fn play_other(
    alloc: Global,
    about: &About<'_>,
    loops: &[Around],
    at: Numbers,
    branches: &[List<Statement>],
    out: &mut List<Stmt>,
) -> Result<End, Memory>
    ensures end { IfOk result (λ e. e ≡ end_of_branches (making about.now).me (opened false at) (bodies branches.now)) }
    ensures plays { OnOk result (map stmt_of out.new.items ≡ map stmt_of out.old.items
        ++ other_choice (making about.now) at.there (bodies branches.now)
        (groups (making about.now) (loops_of loops.now) (opened false at) (bodies branches.now)) ∷ []) }
{
    let mut groups = List::new(alloc);
    let opened = at.opened(false)?;
    let end = play_groups(alloc, about, loops, opened, branches, &mut groups)?;
    let choice = other_choice(alloc, about, at.there, branches, groups)?;
    out.push(choice)?;
    Ok(end)
}

// Appends the blocks of the branches of an own choice.
#[tactic(auto, using(crate::proofs::Playing::branch_steps))]
#[cycle(play)]
fn play_blocks(
    alloc: Global,
    about: &About<'_>,
    loops: &[Around],
    at: Numbers,
    branches: &[List<Statement>],
    out: &mut List<Stmt>,
) -> Result<End, Memory>
    ensures end { IfOk result (λ e. e ≡ end_of_branches (making about.now).me at (bodies branches.now)) }
    ensures blocks { OnOk result (map stmt_of out.new.items ≡ map stmt_of out.old.items
        ++ blocks (making about.now) (loops_of loops.now) at (bodies branches.now)) }
{
    let mut end = End {
        numbers: at,
        falls: false,
    };
    for branch in branches {
        let mut body = List::new(alloc);
        let last = play(
            alloc,
            about,
            loops,
            end.numbers,
            branch.as_slice(),
            &mut body,
        )?;
        out.push(block(about.place, body))?;
        end = end.either(last);
    }
    Ok(end)
}

// Appends the groups of the branches of another's choice.
#[tactic(auto, using(crate::proofs::Playing::branch_steps))]
#[cycle(play)]
fn play_groups(
    alloc: Global,
    about: &About<'_>,
    loops: &[Around],
    at: Numbers,
    branches: &[List<Statement>],
    out: &mut List<Group>,
) -> Result<End, Memory>
    ensures end { IfOk result (λ e. e ≡ end_of_branches (making about.now).me at (bodies branches.now)) }
    ensures groups { OnOk result (map group_of out.new.items ≡ map group_of out.old.items
        ++ groups (making about.now) (loops_of loops.now) at (bodies branches.now)) }
{
    let mut end = End {
        numbers: at,
        falls: false,
    };
    for branch in branches {
        let mut body = List::new(alloc);
        let last = play(
            alloc,
            about,
            loops,
            end.numbers,
            branch.as_slice(),
            &mut body,
        )?;
        add_group(alloc, about, branch.as_slice(), last.falls, body, out)?;
        end = end.either(last);
    }
    Ok(end)
}

// Appends the group of a branch, which ends with `break` where control comes there.
fn add_group(
    alloc: Global,
    about: &About<'_>,
    branch: &[Statement],
    falls: bool,
    body: List<Stmt>,
    out: &mut List<Group>,
) -> Result<(), Memory>
    ensures { OnOk result (map group_of out.new.items ≡ map group_of out.old.items
        ++ group about.now.place (statements branch.now) (map stmt_of body.items ++ ended about.now.place None falls) ∷ []) }
{
    let mut body = body;
    add_break(about.place, None, falls, &mut body)?;
    let group = group(alloc, about.place, branch, body)?;
    out.push(group)
}

// Appends the loop of a `rec`.
#[tactic(auto, using(crate::proofs::Playing::alone))]
#[cycle(play)]
fn play_loop(
    alloc: Global,
    about: &About<'_>,
    loops: &[Around],
    at: Numbers,
    name: &Text,
    body: &[Statement],
    out: &mut List<Stmt>,
) -> Result<End, Memory>
    ensures end { IfOk result (λ e. e ≡ end_of (making about.now).me at (statements body.now)) }
    ensures plays { OnOk result (map stmt_of out.new.items ≡ map stmt_of out.old.items
        ++ looping about.now.place (label_for (loops_of loops.now) name.now)
        (plays (making about.now) (with_loop (loops_of loops.now) name.now) at (statements body.now)
        ++ ended about.now.place (There (label_for (loops_of loops.now) name.now)) (falls (statements body.now))) ∷ []) }
{
    let label = label_for(alloc, loops, name)?;
    let inside = with_loop(alloc, loops, name, &label)?;
    let mut inner = List::new(alloc);
    let end = play(alloc, about, inside.as_slice(), at, body, &mut inner)?;
    add_looping(alloc, about, &label, end.falls, inner, out)?;
    Ok(end)
}

// Appends a loop with this label, which is left where control comes to its end.
fn add_looping(
    alloc: Global,
    about: &About<'_>,
    label: &Text,
    falls: bool,
    body: List<Stmt>,
    out: &mut List<Stmt>,
) -> Result<(), Memory>
    ensures { OnOk result (map stmt_of out.new.items ≡ map stmt_of out.old.items
        ++ looping about.now.place label.now (map stmt_of body.items ++ ended about.now.place (There label.now) falls) ∷ []) }
{
    let mut body = body;
    let target = label.copy()?;
    add_break(about.place, Some(target), falls, &mut body)?;
    let label = label.copy()?;
    let looping = looping(alloc, about.place, label, body)?;
    out.push(looping)
}
