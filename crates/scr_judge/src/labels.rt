//! The branches of a choice can be told apart.

ghost use Rattle.std.specs.Prelude.{◌≡◌, [], IfOk, IfSome, None, Some, string_bytes, option_map};
ghost use Rattle.std.specs.HashSet.{contains_text};
ghost use Rattle.mg_read.specs.First.{Judged};
ghost use Rattle.scr_tree.specs.View.{front, statements};
ghost use Rattle.scr_tree.specs.Tree.{Nothing};
ghost use Rattle.scr_tree.specs.Spots.{spots};
ghost use Rattle.scr_tree.specs.Conditions.{SameLabel, key};
ghost use Rattle.scr_judge.specs.inner.Finding.{same, same_in, first_said, head_of, with_key};
ghost use Rattle.scr_judge.specs.inner.Seen.{none};
ghost use Rattle.scr_judge.specs.inner.View.{culprit_of};
ghost use Rattle.scr_tree.specs.View.{bodies};

use crate::culprit::Culprit;
use crate::seen::{add_name, no_names};
use mg_text::{List, Memory, Text};
use scr_tree::{Message, Statement, call_name};
use std::alloc::Global;
use std::collections::HashSet;

/// The first message that shares its label or call name with that of an earlier branch.
pub fn find_same_label<'a>(
    alloc: Global,
    me: &Text,
    body: &'a [Statement],
) -> Result<Option<Culprit<'a>>, Memory>
    ensures { IfOk result (λ r. Judged (SameLabel me.now) (spots [] (statements body.now)) (culprit_of r)) }
{
    same_all(alloc, me, body)
}

#[tactic(auto, using(crate::proofs::LabelSteps::same_alone))]
#[cycle(labels)]
fn same_at<'a>(
    alloc: Global,
    me: &Text,
    statement: &'a Statement,
) -> Result<Option<Culprit<'a>>, Memory>
    ensures { IfOk result (λ r. culprit_of r ≡ same me.now (front statement.now Nothing)) }
{
    match statement {
        Statement::Message(_) => Ok(None),
        Statement::Choice { at, branches, .. } => { same_in(alloc, me, at, branches.as_slice()) }
        Statement::Rec { body, .. } => same_all(alloc, me, body.as_slice()),
        Statement::Continue { .. } => Ok(None),
        Statement::Do { .. } => Ok(None),
    }
}

#[tactic(auto, using(crate::proofs::LabelSteps::same_steps))]
#[cycle(labels)]
fn same_all<'a>(
    alloc: Global,
    me: &Text,
    body: &'a [Statement],
) -> Result<Option<Culprit<'a>>, Memory>
    ensures { IfOk result (λ r. culprit_of r ≡ same me.now (statements body.now)) }
{
    for statement in body {
        if let Some(culprit) = same_at(alloc, me, statement)? {
            return Ok(Some(culprit));
        }
    }
    Ok(None)
}

#[tactic(auto, using(crate::proofs::LabelSteps::same_in_steps))]
#[cycle(labels)]
fn same_in<'a>(
    alloc: Global,
    me: &Text,
    at: &Text,
    branches: &'a [List<Statement>],
) -> Result<Option<Culprit<'a>>, Memory>
    ensures { IfOk result (λ r. culprit_of r ≡ same_in me.now at.now none (bodies branches.now)) }
{
    let mut keys = no_names(alloc);
    for branch in branches {
        let body = branch.as_slice();
        if let Some(message) = first_message(body) {
            let key = key_of(alloc, me, at, message)?;
            if !add_name(&mut keys, key)? {
                return Ok(Some(Culprit {
                    place: message.place,
                    name: message.label.as_str(),
                }));
            }
        }
        if let Some(culprit) = same_all(alloc, me, body)? {
            return Ok(Some(culprit));
        }
    }
    Ok(None)
}

// The message that statements begin with.
#[tactic(auto, using(crate::proofs::LabelSteps::first_saids))]
pub fn first_message(body: &[Statement]) -> Option<&Message>
    ensures { option_map (λ m. m.now) result ≡ first_said (statements body.now) }
{
    match body.first() {
        None => None,
        Some(statement) => match statement {
            Statement::Message(message) => Some(message),
            Statement::Choice { .. } => None,
            Statement::Rec { .. } => None,
            Statement::Continue { .. } => None,
            Statement::Do { .. } => None,
        },
    }
}

// By what a branch is told from the others.
fn key_of(alloc: Global, me: &Text, at: &Text, message: &Message) -> Result<String, Memory>
    ensures { IfOk result (λ k. string_bytes k ≡ key me.now at.now message.now) }
{
    if *at == *me {
        let name = call_name(alloc, message)?;
        Ok(String::from_str(alloc, name.as_str())?)
    } else {
        Ok(String::from_str(alloc, message.label.as_str())?)
    }
}
