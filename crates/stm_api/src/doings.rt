//! What a role does, in the order of the text.

ghost use Rattle.std.specs.Prelude.{◌≡◌, ◌++◌, ◌↔◌, IsTrue, IfOk, OnOk, map, option_map};
ghost use Rattle.scr_tree.specs.Local.{tree_of};
ghost use Rattle.scr_tree.specs.Meaning.{protocol_of};
ghost use Rattle.scr_tree.specs.View.{front, statements, bodies, part_of};
ghost use Rattle.scr_tree.specs.Tree.{Nothing};
ghost use Rattle.scr_tree.specs.Actions.{next, next_in};
ghost use Rattle.stm_api.specs.Doings.{all_doings};
ghost use Rattle.stm_api.specs.inner.Does.{does, does_in, all_does, part_body, look_at, peer_in, labels_in, first_said};
ghost use Rattle.stm_api.specs.inner.View.{doing_of, names_of};

use mg_text::{List, Memory, Text};
use scr_tree::{Local, Message, Part, Statement};
use std::alloc::Global;

/// A message, or the look at which branch of a numbered choice a peer has taken.
#[derive(Drop)]
pub enum Doing<'a> {
    Passes(&'a Message),
    /// The number, the peer, and the labels of the branches.
    Asks(u32, &'a Text, List<&'a Text>),
}

/// What the role of a protocol does, in the order of the text.
pub fn doings_of<'a>(alloc: Global, local: &'a Local) -> Result<List<Doing<'a>>, Memory>
    ensures { IfOk result (λ ds. map doing_of ds.items ≡ all_doings (protocol_of (tree_of local.now))) }
{
    let mut doings = List::new(alloc);
    let me = local.me();
    let next = collect_all(alloc, me, &mut doings, 1, local.body().as_slice())?;
    collect_parts(alloc, me, &mut doings, next, local.others().as_slice())?;
    Ok(doings)
}

// Appends what protocols of a role do, whose choices elsewhere are numbered from `number` on.
#[tactic(auto, using(crate::proofs::Collecting::part_steps))]
fn collect_parts<'a>(
    alloc: Global,
    me: &Text,
    out: &mut List<Doing<'a>>,
    number: u32,
    parts: &'a [Part],
) -> Result<(), Memory>
    ensures { OnOk result (map doing_of out.new.items ≡ map doing_of out.old.items ++ all_does me.now number
        (map part_body (map part_of parts.now))) }
{
    let mut number = number;
    for part in parts {
        number = collect_all(alloc, me, out, number, part.body.as_slice())?;
    }
    Ok(())
}

// Appends what statements do, whose choices elsewhere are numbered from `number` on. The answer is
// the number that is left for the next one.
#[tactic(auto, using(crate::proofs::Collecting::all_steps))]
#[cycle(doings)]
fn collect_all<'a>(
    alloc: Global,
    me: &Text,
    out: &mut List<Doing<'a>>,
    number: u32,
    body: &'a [Statement],
) -> Result<u32, Memory>
    ensures next { IfOk result (λ n. n ≡ next me.now number (statements body.now)) }
    ensures doings { OnOk result (map doing_of out.new.items ≡ map doing_of out.old.items ++ does me.now number (statements body.now)) }
{
    let mut number = number;
    for statement in body {
        number = collect_at(alloc, me, out, number, statement)?;
    }
    Ok(number)
}

#[tactic(auto, using(crate::proofs::Collecting::alone))]
#[cycle(doings)]
fn collect_at<'a>(
    alloc: Global,
    me: &Text,
    out: &mut List<Doing<'a>>,
    number: u32,
    statement: &'a Statement,
) -> Result<u32, Memory>
    ensures next { IfOk result (λ n. n ≡ next me.now number (front statement.now Nothing)) }
    ensures doings { OnOk result (map doing_of out.new.items ≡ map doing_of out.old.items ++ does me.now number
        (front statement.now Nothing)) }
{
    match statement {
        Statement::Message(message) => {
            out.push(Doing::Passes(message))?;
            Ok(number)
        }
        Statement::Choice { at, branches, .. } => {
            let branches = branches.as_slice();
            if *at == *me {
                collect_in(alloc, me, out, number, branches)
            } else {
                put_look(alloc, out, number, branches)?;
                let Some(after) = number.checked_add(1) else {
                    return Err(Memory);
                };
                collect_in(alloc, me, out, after, branches)
            }
        }
        Statement::Rec { body, .. } => collect_all(alloc, me, out, number, body.as_slice()),
        Statement::Continue { .. } => Ok(number),
        Statement::Do { .. } => Ok(number),
    }
}

#[tactic(auto, using(crate::proofs::Collecting::in_steps))]
#[cycle(doings)]
fn collect_in<'a>(
    alloc: Global,
    me: &Text,
    out: &mut List<Doing<'a>>,
    number: u32,
    branches: &'a [List<Statement>],
) -> Result<u32, Memory>
    ensures next { IfOk result (λ n. n ≡ next_in me.now number (bodies branches.now)) }
    ensures doings { OnOk result (map doing_of out.new.items ≡ map doing_of out.old.items ++ does_in me.now number (bodies branches.now)) }
{
    let mut number = number;
    for branch in branches {
        number = collect_all(alloc, me, out, number, branch.as_slice())?;
    }
    Ok(number)
}

// Appends the look at these branches, if the first begins with a message.
fn put_look<'a>(
    alloc: Global,
    out: &mut List<Doing<'a>>,
    number: u32,
    branches: &'a [List<Statement>],
) -> Result<(), Memory>
    ensures { OnOk result (map doing_of out.new.items ≡ map doing_of out.old.items ++ look_at number (peer_in (bodies branches.now))
        (labels_in (bodies branches.now))) }
{
    let Some(peer) = first_peer(branches) else {
        return Ok(());
    };
    let labels = labels_of(alloc, branches)?;
    out.push(Doing::Asks(number, peer, labels))?;
    Ok(())
}

// The peer of the first message of the first branch.
#[tactic(auto, using(crate::proofs::Collecting::firsts))]
fn first_peer(branches: &[List<Statement>]) -> Option<&Text>
    ensures { option_map (λ p. p.now) result ≡ peer_in (bodies branches.now) }
{
    match branches.first() {
        None => None,
        Some(branch) => match first_message(branch.as_slice()) {
            None => None,
            Some(message) => Some(&message.peer),
        },
    }
}

// The labels of the messages that branches begin with.
#[tactic(auto, using(crate::proofs::Collecting::label_steps))]
fn labels_of<'a>(alloc: Global, branches: &'a [List<Statement>]) -> Result<List<&'a Text>, Memory>
    ensures { IfOk result (λ ls. names_of ls.items ≡ labels_in (bodies branches.now)) }
{
    let mut labels = List::new(alloc);
    for branch in branches {
        let Some(message) = first_message(branch.as_slice()) else {
            continue;
        };
        labels.push(&message.label)?;
    }
    Ok(labels)
}

// The message that statements begin with.
#[tactic(auto, using(crate::proofs::Collecting::firsts))]
fn first_message(body: &[Statement]) -> Option<&Message>
    ensures { option_map (λ m. m.now) result ≡ first_said (statements body.now) }
{
    match body.first() {
        None => None,
        Some(statement) => match statement {
            Statement::Message(message) => Some(message),
            Statement::Choice { .. } => None,
            Statement::Rec { .. } => None,
            Statement::Continue { .. } => None,
            Statement::Do { .. } => None,
        },
    }
}
