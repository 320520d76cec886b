//! Conditions that a statement decides, with the names of the recs around it and the choice whose
//! branch it begins.

ghost use Rattle.std.specs.Prelude.{◌≡◌, [], None};
ghost use Rattle.std.specs.HashSet.{contains_text};
ghost use Rattle.mg_read.specs.First.{Judged};
ghost use Rattle.scr_tree.specs.View.{front, statements};
ghost use Rattle.scr_tree.specs.Tree.{Nothing};
ghost use Rattle.scr_tree.specs.Spots.{spots};
ghost use Rattle.scr_tree.specs.Conditions as says;
ghost use Rattle.scr_judge.specs.inner.OnSpot.{asks_role, asks_protocol, unknown_protocol, unknown_role, peer_is_self, is_free_label};
ghost use Rattle.scr_judge.specs.inner.OnSpot.{unknown_rec, duplicate_rec, branch_start, mixed_choice, reserved_label, test, walk, walk_in};
ghost use Rattle.scr_judge.specs.inner.Seen.{noted_in};
ghost use Rattle.scr_judge.specs.inner.View.{begins_of, names_of, culprit_of};
ghost use Rattle.scr_tree.specs.View.{bodies};

use crate::culprit::{Culprit, culprit_unless};
use crate::guards::{Names, is_among};
use crate::starts::{has_empty, is_uniform};
use crate::truth::either;
use mg_text::{List, Text, is_java_word};
use scr_tree::Statement;
use std::collections::HashSet;

/// Which condition is judged, with what it asks for.
#[derive(Clone, Copy)]
pub enum Check<'a> {
    /// A role that is not one of these.
    UnknownRole(&'a HashSet<&'a str>),
    /// A peer that is this role.
    PeerIsSelf(&'a Text),
    UnknownRec,
    DuplicateRec,
    BranchStart,
    /// A choice of a protocol of this role.
    MixedChoice(&'a Text),
    /// A label of a protocol of this role.
    ReservedLabel(&'a Text),
    /// A `do` that names none of these protocols.
    UnknownProtocol(&'a HashSet<String>),
}

/// The first message or choice that names a role that is not among these.
pub fn find_unknown_peer<'a>(roles: &HashSet<&str>, body: &'a [Statement]) -> Option<Culprit<'a>>
    ensures { culprit_of result ≡ walk (asks_role (noted_in roles.now)) None [] (statements body.now) }
{
    find_all(Check::UnknownRole(roles), None, &Names::Outside, body)
}

/// The first message to or from the role itself.
pub fn find_peer_is_self<'a>(me: &Text, body: &'a [Statement]) -> Option<Culprit<'a>>
    ensures { Judged (says.PeerIsSelf me.now) (spots [] (statements body.now)) (culprit_of result) }
{
    find_all(Check::PeerIsSelf(me), None, &Names::Outside, body)
}

/// The first `continue` outside a rec of its name.
pub fn find_unknown_rec(body: &[Statement]) -> Option<Culprit<'_>>
    ensures { Judged says.UnknownRec (spots [] (statements body.now)) (culprit_of result) }
{
    find_all(Check::UnknownRec, None, &Names::Outside, body)
}

/// The first rec within a rec of its name.
pub fn find_duplicate_rec(body: &[Statement]) -> Option<Culprit<'_>>
    ensures { Judged says.DuplicateRec (spots [] (statements body.now)) (culprit_of result) }
{
    find_all(Check::DuplicateRec, None, &Names::Outside, body)
}

/// The first choice with an empty branch, or first statement of a branch that is no message.
pub fn find_branch_start(body: &[Statement]) -> Option<Culprit<'_>>
    ensures { Judged says.BranchStart (spots [] (statements body.now)) (culprit_of result) }
{
    find_all(Check::BranchStart, None, &Names::Outside, body)
}

/// The first choice whose first messages do not go together.
pub fn find_mixed_choice<'a>(me: &Text, body: &'a [Statement]) -> Option<Culprit<'a>>
    ensures { Judged (says.MixedChoice me.now) (spots [] (statements body.now)) (culprit_of result) }
{
    find_all(Check::MixedChoice(me), None, &Names::Outside, body)
}

/// The first label of a choice elsewhere that Java reserves.
pub fn find_reserved_label<'a>(me: &Text, body: &'a [Statement]) -> Option<Culprit<'a>>
    ensures { Judged (says.ReservedLabel me.now) (spots [] (statements body.now)) (culprit_of result) }
{
    find_all(Check::ReservedLabel(me), None, &Names::Outside, body)
}

/// The first `do` that names a protocol that is not among these.
pub fn find_unknown_protocol<'a>(
    names: &HashSet<String>,
    body: &'a [Statement],
) -> Option<Culprit<'a>>
    ensures { culprit_of result ≡ walk (asks_protocol (contains_text names.now)) None [] (statements body.now) }
{
    find_all(Check::UnknownProtocol(names), None, &Names::Outside, body)
}

// The first statement at fault. The first one begins a branch of a choice at the role, if one is
// given.
#[tactic(auto, using(crate::proofs::SpotSteps::all_steps))]
#[cycle(on_spot)]
fn find_all<'a>(
    check: Check<'_>,
    begins: Option<&Text>,
    around: &Names<'_>,
    body: &'a [Statement],
) -> Option<Culprit<'a>>
    ensures { culprit_of result ≡ walk (test check.entry) (begins_of begins.entry) (names_of around.now) (statements body.now) }
{
    let mut begins = begins;
    for statement in body {
        if let Some(culprit) = find_at(check, begins, around, statement) {
            return Some(culprit);
        }
        begins = None;
    }
    None
}

#[tactic(auto, using(crate::proofs::SpotSteps::alone))]
#[cycle(on_spot)]
fn find_at<'a>(
    check: Check<'_>,
    begins: Option<&Text>,
    around: &Names<'_>,
    statement: &'a Statement,
) -> Option<Culprit<'a>>
    ensures { culprit_of result ≡ walk (test check.entry) (begins_of begins.entry) (names_of around.now) (front statement.now Nothing) }
{
    if let Some(culprit) = test_at(check, begins, around, statement) {
        return Some(culprit);
    }
    match statement {
        Statement::Message(_) => None,
        Statement::Choice { at, branches, .. } => find_in(check, at, around, branches.as_slice()),
        Statement::Rec { name, body, .. } => {
            let inside = Names::Inside(name.as_str(), &*around);
            find_all(check, None, &inside, body.as_slice())
        }
        Statement::Continue { .. } => None,
        Statement::Do { .. } => None,
    }
}

#[tactic(auto, using(crate::proofs::SpotSteps::in_steps))]
#[cycle(on_spot)]
fn find_in<'a>(
    check: Check<'_>,
    at: &Text,
    around: &Names<'_>,
    branches: &'a [List<Statement>],
) -> Option<Culprit<'a>>
    ensures { culprit_of result ≡ walk_in (test check.entry) at.now (names_of around.now) (bodies branches.now) }
{
    for branch in branches {
        if let Some(culprit) = find_all(check, Some(at), around, branch.as_slice()) {
            return Some(culprit);
        }
    }
    None
}

// What one statement answers.
fn test_at<'a>(
    check: Check<'_>,
    begins: Option<&Text>,
    around: &Names<'_>,
    statement: &'a Statement,
) -> Option<Culprit<'a>>
    ensures { culprit_of result ≡ test check.entry (begins_of begins.entry) (names_of around.now) (front statement.now Nothing) }
{
    match check {
        Check::UnknownRole(roles) => unknown_role(roles, statement),
        Check::PeerIsSelf(me) => peer_is_self(me, statement),
        Check::UnknownRec => unknown_rec(around, statement),
        Check::DuplicateRec => duplicate_rec(around, statement),
        Check::BranchStart => branch_start(begins.is_some(), statement),
        Check::MixedChoice(me) => mixed_choice(me, statement),
        Check::ReservedLabel(me) => reserved_label(me, begins, statement),
        Check::UnknownProtocol(names) => unknown_protocol(names, statement),
    }
}

#[tactic(auto, using(crate::proofs::SpotSteps::tests))]
fn unknown_role<'a>(roles: &HashSet<&str>, statement: &'a Statement) -> Option<Culprit<'a>>
    ensures { culprit_of result ≡ unknown_role (noted_in roles.now) (front statement.now Nothing) }
{
    match statement {
        Statement::Message(message) => {
            let name = message.peer.as_str();
            culprit_unless(roles.contains(name), message.place, name)
        }
        Statement::Choice { place, at, .. } => {
            let name = at.as_str();
            culprit_unless(roles.contains(name), *place, name)
        }
        Statement::Rec { .. } => None,
        Statement::Continue { .. } => None,
        Statement::Do { .. } => None,
    }
}

#[tactic(auto, using(crate::proofs::SpotSteps::tests))]
fn peer_is_self<'a>(me: &Text, statement: &'a Statement) -> Option<Culprit<'a>>
    ensures { culprit_of result ≡ peer_is_self me.now (front statement.now Nothing) }
{
    match statement {
        Statement::Message(message) => { culprit_unless(message.peer != *me, message.place, "") }
        Statement::Choice { .. } => None,
        Statement::Rec { .. } => None,
        Statement::Continue { .. } => None,
        Statement::Do { .. } => None,
    }
}

#[tactic(auto, using(crate::proofs::SpotSteps::tests))]
fn unknown_rec<'a>(around: &Names<'_>, statement: &'a Statement) -> Option<Culprit<'a>>
    ensures { culprit_of result ≡ unknown_rec (names_of around.now) (front statement.now Nothing) }
{
    match statement {
        Statement::Message(_) => None,
        Statement::Choice { .. } => None,
        Statement::Rec { .. } => None,
        Statement::Continue { place, name } => {
            let name = name.as_str();
            culprit_unless(is_among(name, around), *place, name)
        }
        Statement::Do { .. } => None,
    }
}

#[tactic(auto, using(crate::proofs::SpotSteps::tests))]
fn unknown_protocol<'a>(names: &HashSet<String>, statement: &'a Statement) -> Option<Culprit<'a>>
    ensures { culprit_of result ≡ unknown_protocol (contains_text names.now) (front statement.now Nothing) }
{
    match statement {
        Statement::Message(_) => None,
        Statement::Choice { .. } => None,
        Statement::Rec { .. } => None,
        Statement::Continue { .. } => None,
        Statement::Do { place, name } => {
            let name = name.as_str();
            culprit_unless(names.contains(name), *place, name)
        }
    }
}

#[tactic(auto, using(crate::proofs::SpotSteps::tests))]
fn duplicate_rec<'a>(around: &Names<'_>, statement: &'a Statement) -> Option<Culprit<'a>>
    ensures { culprit_of result ≡ duplicate_rec (names_of around.now) (front statement.now Nothing) }
{
    match statement {
        Statement::Message(_) => None,
        Statement::Choice { .. } => None,
        Statement::Rec { place, name, .. } => {
            let name = name.as_str();
            culprit_unless(!is_among(name, around), *place, name)
        }
        Statement::Continue { .. } => None,
        Statement::Do { .. } => None,
    }
}

// `first` says that the statement begins a branch.
#[tactic(auto, using(crate::proofs::SpotSteps::tests))]
fn branch_start(first: bool, statement: &Statement) -> Option<Culprit<'_>>
    ensures { culprit_of result ≡ branch_start first (front statement.now Nothing) }
{
    match statement {
        Statement::Message(_) => None,
        Statement::Choice {
            place,
            branches,
            ..
        } => {
            let wrong = either(first, has_empty(branches.as_slice()));
            culprit_unless(!wrong, *place, "")
        }
        Statement::Rec { place, .. } => culprit_unless(!first, *place, ""),
        Statement::Continue { place, .. } => culprit_unless(!first, *place, ""),
        Statement::Do { place, .. } => culprit_unless(!first, *place, ""),
    }
}

#[tactic(auto, using(crate::proofs::SpotSteps::tests))]
fn mixed_choice<'a>(me: &Text, statement: &'a Statement) -> Option<Culprit<'a>>
    ensures { culprit_of result ≡ mixed_choice me.now (front statement.now Nothing) }
{
    match statement {
        Statement::Message(_) => None,
        Statement::Choice {
            place,
            at,
            branches,
        } => {
            let fine = is_uniform(me, at, branches.as_slice());
            culprit_unless(fine, *place, "")
        }
        Statement::Rec { .. } => None,
        Statement::Continue { .. } => None,
        Statement::Do { .. } => None,
    }
}

#[tactic(auto, using(crate::proofs::SpotSteps::tests))]
fn reserved_label<'a>(
    me: &Text,
    begins: Option<&Text>,
    statement: &'a Statement,
) -> Option<Culprit<'a>>
    ensures { culprit_of result ≡ reserved_label me.now (begins_of begins.entry) (front statement.now Nothing) }
{
    let Some(at) = begins else {
        return None;
    };
    match statement {
        Statement::Message(message) => {
            let label = message.label.as_str();
            culprit_unless(is_free_label(me, at, label), message.place, label)
        }
        Statement::Choice { .. } => None,
        Statement::Rec { .. } => None,
        Statement::Continue { .. } => None,
        Statement::Do { .. } => None,
    }
}

// Whether a label may begin a branch of a choice.
#[tactic(auto, using(crate::proofs::Words::reserved_by))]
fn is_free_label(me: &Text, at: &Text, label: &str) -> bool
    ensures { result ≡ is_free_label me.now at.now label.now }
{
    let reserved = is_java_word(label);
    either(*at == *me, !reserved)
}
