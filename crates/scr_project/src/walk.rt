//! One walk over the text of a global protocol, for one role.

ghost use Rattle.std.specs.Prelude.{◌≡◌, IfOk};
ghost use Rattle.scr_tree.specs.Tree as local;
ghost use Rattle.scr_tree.specs.View.{statements as local_statements, bodies as local_bodies};
ghost use Rattle.scr_global.specs.Texts.{told_in};
ghost use Rattle.scr_global.specs.Tree.{Nothing, Says};
ghost use Rattle.scr_global_tree.specs.View.{front, statements, bodies, told};
ghost use Rattle.scr_project.specs.inner.Walk.{found, found_each, body_said, turned, chosen, passes};
ghost use Rattle.scr_project.specs.inner.View.{names_of, says_of, found_of, each_of};

use crate::merge::merged;
use crate::names::{Names, far};
use crate::part::{Each, Part, one};
use mg_text::{List, Memory, Place, Text};
use scr_global_tree::GStatement;
use scr_tree::{Direction, Message, Payload, Statement};
use std::alloc::Global;

// Whether a statement is a message that the role neither sends nor takes. Nothing is found in it, and most
// statements are such ones where many roles speak.
#[tactic(auto, using(crate::proofs::Steps::passing))]
fn passes(me: &Text, statement: &GStatement) -> bool
    ensures { result ≡ passes me.now (front statement.now Nothing) }
{
    match statement {
        GStatement::Message {
            sender,
            receiver,
            ..
        } => {
            let sent = *sender == *me;
            let taken = *receiver == *me;
            !(sent | taken)
        }
        GStatement::Choice { .. } | GStatement::Rec { .. } | GStatement::Continue { .. } => false,
    }
}

/// What is found of statements.
#[tactic(auto, using(crate::proofs::Steps::all_steps))]
#[cycle(walk)]
pub(crate) fn found_all(
    alloc: Global,
    me: &Text,
    around: &Names<'_>,
    body: &[GStatement],
) -> Result<Part, Memory>
    ensures { IfOk result (λ p. found_of p ≡ found me.now (names_of around.now) (statements body.now)) }
{
    let mut part = Part::nothing(alloc);
    for statement in body {
        if passes(me, statement) {
            continue;
        }
        let next = found_at(alloc, me, around, statement)?;
        part = part.followed_by(next)?;
    }
    Ok(part)
}

#[tactic(auto, using(crate::proofs::Steps::alone))]
#[cycle(walk)]
fn found_at(
    alloc: Global,
    me: &Text,
    around: &Names<'_>,
    statement: &GStatement,
) -> Result<Part, Memory>
    ensures { IfOk result (λ p. found_of p ≡ found me.now (names_of around.now) (front statement.now Nothing)) }
{
    match statement {
        GStatement::Message {
            place,
            sender,
            receiver,
            label,
            payload,
        } => {
            let sent = *sender == *me;
            let taken = *receiver == *me;
            let says = said(
                alloc, sent, taken, *place, sender, receiver, label, *payload,
            )?;
            Ok(Part {
                named: sent | taken,
                reach: 0,
                first: None,
                says: Some(says),
            })
        }
        GStatement::Choice {
            place,
            at,
            branches,
        } => {
            let each = found_in(alloc, me, around, branches.as_slice())?;
            chosen(alloc, me, *place, at, each)
        }
        GStatement::Rec { place, name, body } => {
            let inside = Names::Inside(name.as_str(), &*around);
            let part = found_all(alloc, me, &inside, body.as_slice())?;
            turned(alloc, *place, name, part)
        }
        GStatement::Continue { place, name } => {
            let reach = far(name.as_str(), around)?;
            let says = continued(alloc, *place, name)?;
            Ok(Part {
                named: false,
                reach,
                first: None,
                says: Some(says),
            })
        }
    }
}

#[tactic(auto, using(crate::proofs::Steps::in_steps))]
#[cycle(walk)]
fn found_in(
    alloc: Global,
    me: &Text,
    around: &Names<'_>,
    branches: &[List<GStatement>],
) -> Result<Each, Memory>
    ensures { IfOk result (λ p. each_of p ≡ found_each me.now (names_of around.now) (bodies branches.now)) }
{
    let mut each = Each::nothing(alloc);
    for branch in branches {
        let next = found_all(alloc, me, around, branch.as_slice())?;
        each = each.with_branch(next)?;
    }
    Ok(each)
}

// What a message is to the role: one that it sends, one that it takes, or nothing.
#[tactic(auto, using(crate::proofs::Steps::saying))]
fn said(
    alloc: Global,
    sent: bool,
    taken: bool,
    place: Place,
    sender: &Text,
    receiver: &Text,
    label: &Text,
    payload: Payload,
) -> Result<List<Statement>, Memory>
    ensures { IfOk result (λ l. local_statements l.items
        ≡ told_in sent taken (told place sender.now receiver.now label.now payload) local.Nothing) }
{
    if sent {
        return message(alloc, place, Direction::To, receiver, label, payload);
    }
    if taken {
        return message(alloc, place, Direction::From, sender, label, payload);
    }
    Ok(List::new(alloc))
}

// A message alone.
#[tactic(auto, using(crate::proofs::Steps::saying))]
fn message(
    alloc: Global,
    place: Place,
    direction: Direction,
    peer: &Text,
    label: &Text,
    payload: Payload,
) -> Result<List<Statement>, Memory>
    ensures { IfOk result (λ l. local_statements l.items
        ≡ local.Says (record { place = place; direction = direction; peer = peer.now; label = label.now; payload = payload })
        local.Nothing) }
{
    let message = Message {
        place,
        direction,
        peer: peer.copy()?,
        label: label.copy()?,
        payload,
    };
    one(alloc, Statement::Message(message))
}

// A `continue` alone.
#[tactic(auto, using(crate::proofs::Steps::saying))]
fn continued(alloc: Global, place: Place, name: &Text) -> Result<List<Statement>, Memory>
    ensures { IfOk result (λ l. local_statements l.items ≡ local.Continue place name.now local.Nothing) }
{
    let name = name.copy()?;
    one(alloc, Statement::Continue { place, name })
}

// A rec with a body of which this is found.
#[tactic(auto, using(crate::proofs::Steps::saying))]
fn turned(alloc: Global, place: Place, name: &Text, body: Part) -> Result<Part, Memory>
    ensures { IfOk result (λ p. found_of p ≡ turned place name.now (found_of body)) }
{
    let Part {
        named,
        reach,
        first,
        says,
    } = body;
    let says = body_of(alloc, place, name, named, reach, says)?;
    Ok(Part {
        named,
        reach: reach.saturating_sub(1),
        first,
        says,
    })
}

// What a rec says: nothing where no message in it names the role and no `continue` in it leads out
// of it.
#[tactic(auto, using(crate::proofs::Steps::saying))]
fn body_of(
    alloc: Global,
    place: Place,
    name: &Text,
    named: bool,
    reach: u32,
    says: Option<List<Statement>>,
) -> Result<Option<List<Statement>>, Memory>
    ensures { IfOk result (λ l. says_of l ≡ body_said place name.now named reach (says_of says)) }
{
    if !named && reach <= 1 {
        return Ok(Some(List::new(alloc)));
    }
    let Some(body) = says else {
        return Ok(None);
    };
    let name = name.copy()?;
    let says = one(alloc, Statement::Rec { place, name, body })?;
    Ok(Some(says))
}

// A choice of the role itself, alone.
#[tactic(auto, using(crate::proofs::Steps::saying))]
fn own_choice(
    alloc: Global,
    place: Place,
    at: &Text,
    branches: List<List<Statement>>,
) -> Result<List<Statement>, Memory>
    ensures { IfOk result (λ l. local_statements l.items ≡ local.Choice place at.now (local_bodies branches.items) local.Nothing) }
{
    let at = at.copy()?;
    let choice = Statement::Choice {
        place,
        at,
        branches,
    };
    one(alloc, choice)
}

// A choice with branches of which this is found.
#[tactic(auto, using(crate::proofs::Steps::choosing))]
fn chosen(alloc: Global, me: &Text, place: Place, at: &Text, each: Each) -> Result<Part, Memory>
    ensures { IfOk result (λ p. found_of p ≡ chosen me.now place at.now (each_of each)) }
{
    let Each {
        named,
        reach,
        first,
        says,
    } = each;
    let Some(branches) = says else {
        return Ok(Part {
            named,
            reach,
            first,
            says: None,
        });
    };
    if *at == *me {
        let says = own_choice(alloc, place, at, branches)?;
        return Ok(Part {
            named,
            reach,
            first,
            says: Some(says),
        });
    }
    match merged(alloc, me, place, branches)? {
        Some(says) => Ok(Part {
            named,
            reach,
            first,
            says: Some(says),
        }),
        None => Ok(Part {
            named,
            reach,
            first: Some(place),
            says: None,
        }),
    }
}
