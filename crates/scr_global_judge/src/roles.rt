//! The roles of messages and choices are listed, and those of a message are two.

ghost use Rattle.std.specs.Prelude.{◌≡◌, []};
ghost use Rattle.std.specs.HashSet.{contains_text};
ghost use Rattle.mg_read.specs.First.{Judged};
ghost use Rattle.std.specs.Option.{option_or};
ghost use Rattle.mg_read.specs.Culprit.{culprit};
ghost use Rattle.scr_judge.specs.inner.OnSpot.{unless};
ghost use Rattle.scr_judge.specs.inner.View.{culprit_of};
ghost use Rattle.scr_global.specs.Conditions as says;
ghost use Rattle.scr_global.specs.Spots.{spots};
ghost use Rattle.scr_global.specs.Tree.{Nothing};
ghost use Rattle.scr_global_tree.specs.View.{front, statements, bodies};
ghost use Rattle.scr_global_judge.specs.inner.Roles.{unknown_role, peer_is_self, test, walk, walk_in};

use mg_text::{List, Place, Text};
use scr_global_tree::GStatement;
use scr_judge::{Culprit, culprit_unless};
use std::collections::HashSet;

/// Which condition is judged, with what it asks for.
#[derive(Clone, Copy)]
pub(crate) enum Check<'a> {
    /// A role that is not one of these.
    UnknownRole(&'a HashSet<String>),
    /// A message from a role to itself.
    PeerIsSelf,
}

/// The first message or choice that names a role that is not among these.
pub(crate) fn find_unknown_role<'a>(
    roles: &HashSet<String>,
    body: &'a [GStatement],
) -> Option<Culprit<'a>>
    ensures { culprit_of result ≡ walk (unknown_role (contains_text roles.now)) (statements body.now) }
{
    find_all(Check::UnknownRole(roles), body)
}

/// The first message from a role to itself.
pub(crate) fn find_peer_is_self(body: &[GStatement]) -> Option<Culprit<'_>>
    ensures { Judged says.PeerIsSelf (spots [] (statements body.now)) (culprit_of result) }
{
    find_all(Check::PeerIsSelf, body)
}

#[tactic(auto, using(crate::proofs::RoleSteps::all_steps))]
#[cycle(roles)]
fn find_all<'a>(check: Check<'_>, body: &'a [GStatement]) -> Option<Culprit<'a>>
    ensures { culprit_of result ≡ walk (test check.entry) (statements body.now) }
{
    for statement in body {
        if let Some(culprit) = find_at(check, statement) {
            return Some(culprit);
        }
    }
    None
}

#[tactic(auto, using(crate::proofs::RoleSteps::alone))]
#[cycle(roles)]
fn find_at<'a>(check: Check<'_>, statement: &'a GStatement) -> Option<Culprit<'a>>
    ensures { culprit_of result ≡ walk (test check.entry) (front statement.now Nothing) }
{
    if let Some(culprit) = test_at(check, statement) {
        return Some(culprit);
    }
    match statement {
        GStatement::Message { .. } => None,
        GStatement::Choice { branches, .. } => find_in(check, branches.as_slice()),
        GStatement::Rec { body, .. } => find_all(check, body.as_slice()),
        GStatement::Continue { .. } => None,
    }
}

#[tactic(auto, using(crate::proofs::RoleSteps::in_steps))]
#[cycle(roles)]
fn find_in<'a>(check: Check<'_>, branches: &'a [List<GStatement>]) -> Option<Culprit<'a>>
    ensures { culprit_of result ≡ walk_in (test check.entry) (bodies branches.now) }
{
    for branch in branches {
        if let Some(culprit) = find_all(check, branch.as_slice()) {
            return Some(culprit);
        }
    }
    None
}

// What one statement answers.
fn test_at<'a>(check: Check<'_>, statement: &'a GStatement) -> Option<Culprit<'a>>
    ensures { culprit_of result ≡ test check.entry (front statement.now Nothing) }
{
    match check {
        Check::UnknownRole(roles) => unknown_role(roles, statement),
        Check::PeerIsSelf => peer_is_self(statement),
    }
}

#[tactic(auto, using(crate::proofs::RoleSteps::tests))]
fn unknown_role<'a>(roles: &HashSet<String>, statement: &'a GStatement) -> Option<Culprit<'a>>
    ensures { culprit_of result ≡ unknown_role (contains_text roles.now) (front statement.now Nothing) }
{
    match statement {
        GStatement::Message {
            place,
            sender,
            receiver,
            ..
        } => unknown_in(roles, *place, sender, receiver),
        GStatement::Choice { place, at, .. } => unlisted(roles, *place, at),
        GStatement::Rec { .. } => None,
        GStatement::Continue { .. } => None,
    }
}

// The first of the two roles of a message that isn't listed.
fn unknown_in<'a>(
    roles: &HashSet<String>,
    place: Place,
    sender: &'a Text,
    receiver: &'a Text,
) -> Option<Culprit<'a>>
    ensures { culprit_of result ≡ option_or (unless (contains_text roles.now sender.now) (culprit place sender.now))
        (unless (contains_text roles.now receiver.now) (culprit place receiver.now)) }
{
    match unlisted(roles, place, sender) {
        Some(culprit) => Some(culprit),
        None => unlisted(roles, place, receiver),
    }
}

// A role that isn't listed.
fn unlisted<'a>(roles: &HashSet<String>, place: Place, role: &'a Text) -> Option<Culprit<'a>>
    ensures { culprit_of result ≡ unless (contains_text roles.now role.now) (culprit place role.now) }
{
    let name = role.as_str();
    culprit_unless(roles.contains(name), place, name)
}

#[tactic(auto, using(crate::proofs::RoleSteps::tests))]
fn peer_is_self(statement: &GStatement) -> Option<Culprit<'_>>
    ensures { culprit_of result ≡ peer_is_self (front statement.now Nothing) }
{
    match statement {
        GStatement::Message {
            place,
            sender,
            receiver,
            ..
        } => culprit_unless(*sender != *receiver, *place, ""),
        GStatement::Choice { .. } => None,
        GStatement::Rec { .. } => None,
        GStatement::Continue { .. } => None,
    }
}
