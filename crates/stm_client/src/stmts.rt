//! The statements that a client is made of.

ghost use Rattle.std.specs.Prelude.{◌≡◌, ◌++◌, [], ◌∷◌, IfOk, OnOk, map, length, option_map};
ghost use Rattle.scr_tree.specs.Local.{tree_of};
ghost use Rattle.scr_tree.specs.Meaning.{message_of};
ghost use Rattle.scr_tree.specs.CallNames.{label_call};
ghost use Rattle.scr_tree.specs.Said.{first_said};
ghost use Rattle.scr_tree.specs.View.{statements, bodies};
ghost use Rattle.jv_tree.specs.Source.{Eval, IfElse};
ghost use Rattle.jv_tree.specs.View.{stmt_of, stmt_kind_of, group_of};
ghost use Rattle.stm_client.specs.Client.{block, taken, passing, is_turn, next_turn, in_turn, own_choice, ended, label_of_group, group};
ghost use Rattle.stm_client.specs.Client.{first_branch, other_choice, looping, on_role, first_value, peer_of, part_call};
ghost use Rattle.stm_client.specs.View.{making};

use crate::exprs::{
    binary, boxed, counter, first_value, is_turn, number, on_role, part_call, variable,
};
use crate::points::About;
use jv_tree::{Expr, ExprKind, Group, Op, Stmt, StmtKind};
use mg_text::{List, Memory, Place, Text};
use scr_trace::label_call_name;
use scr_tree::{Direction, Message, Payload, Statement, call_name};
use std::alloc::Global;

/// Appends a statement.
#[tactic(auto, using(crate::proofs::Trees::views))]
pub fn add(out: &mut List<Stmt>, place: Place, kind: StmtKind) -> Result<(), Memory>
    ensures { OnOk result (map stmt_of out.new.items ≡ map stmt_of out.old.items ++ stmt_kind_of kind place ∷ []) }
{
    out.push(Stmt { place, kind })
}

/// A block of these statements.
#[tactic(auto, using(crate::proofs::Trees::views))]
pub fn block(place: Place, body: List<Stmt>) -> Stmt
    ensures { stmt_of result ≡ block place (map stmt_of body.items) }
{
    let kind = StmtKind::Block(body, place);
    Stmt { place, kind }
}

/// A message to a peer, or from one.
#[tactic(auto, using(crate::proofs::Trees::messages))]
pub fn passing(alloc: Global, place: Place, message: &Message) -> Result<Stmt, Memory>
    ensures { IfOk result (λ s. stmt_of s ≡ passing place (message_of message.now)) }
{
    let name = call_name(alloc, message)?;
    match message.direction {
        Direction::To => sending(alloc, place, name, message.payload),
        Direction::From => taking(alloc, place, name, message.payload),
    }
}

// A message to a peer.
#[tactic(auto, using(crate::proofs::Trees::views))]
fn sending(alloc: Global, place: Place, name: Text, payload: Payload) -> Result<Stmt, Memory>
    ensures { IfOk result (λ s. stmt_of s ≡ Eval place (on_role place name (first_value place payload))) }
{
    let args = first_value(alloc, place, payload)?;
    let call = on_role(alloc, place, name, args)?;
    let kind = StmtKind::Eval(call);
    Ok(Stmt { place, kind })
}

// A message from a peer: what it carries is printed, if anything is.
#[tactic(auto, using(crate::proofs::Trees::views))]
fn taking(alloc: Global, place: Place, name: Text, payload: Payload) -> Result<Stmt, Memory>
    ensures { IfOk result (λ s. stmt_of s ≡ taken place payload (on_role place name [])) }
{
    let call = on_role(alloc, place, name, List::new(alloc))?;
    let kind = match payload {
        Payload::Nothing => StmtKind::Eval(call),
        Payload::Int | Payload::Boolean | Payload::Text => StmtKind::Print(call),
    };
    Ok(Stmt { place, kind })
}

/// Appends an own choice of this number, whose branches are these blocks.
#[tactic(auto, using(crate::proofs::Trees::views))]
pub fn add_own_choice(
    alloc: Global,
    place: Place,
    choice: u32,
    blocks: List<Stmt>,
    out: &mut List<Stmt>,
) -> Result<(), Memory>
    ensures { OnOk result (map stmt_of out.new.items ≡ map stmt_of out.old.items ++ own_choice place choice (map stmt_of blocks.items)) }
{
    let turn = next_turn(alloc, place, choice)?;
    let branches = in_turn(alloc, place, choice, blocks)?;
    out.push(turn)?;
    out.push(branches)
}

// The counter of a choice goes up.
#[tactic(auto, using(crate::proofs::Trees::views))]
fn next_turn(alloc: Global, place: Place, choice: u32) -> Result<Stmt, Memory>
    ensures { IfOk result (λ s. stmt_of s ≡ next_turn place choice) }
{
    let name = counter(alloc, choice)?;
    let target = variable(alloc, place, name.as_str())?;
    let old = variable(alloc, place, name.as_str())?;
    let one = number(place, 1)?;
    let new = binary(alloc, place, Op::Add, old, one)?;
    let kind = StmtKind::Assign(target, new);
    Ok(Stmt { place, kind })
}

// These blocks, each where its turn is, and the last where it is that of none before it.
fn in_turn(alloc: Global, place: Place, choice: u32, blocks: List<Stmt>) -> Result<Stmt, Memory>
    ensures { IfOk result (λ s. stmt_of s ≡ in_turn place choice (length blocks.items) 1 (map stmt_of blocks.items)) }
{
    let count = blocks.len() as u32;
    let mut blocks = blocks.into_vec();
    let Some(mut last) = blocks.pop() else {
        return Ok(block(place, List::new(alloc)));
    };
    let mut branch = count;
    while let Some(block) = blocks.pop() {
        branch -= 1;
        last = turn(alloc, place, choice, count, branch, block, last)?;
    }
    Ok(last)
}

// This block where its turn is, and otherwise what follows.
#[tactic(auto, using(crate::proofs::Trees::views))]
fn turn(
    alloc: Global,
    place: Place,
    choice: u32,
    count: u32,
    branch: u32,
    block: Stmt,
    last: Stmt,
) -> Result<Stmt, Memory>
    ensures { IfOk result (λ s. stmt_of s ≡ IfElse place (is_turn place choice count branch) (stmt_of block) (stmt_of last)) }
{
    let test = is_turn(alloc, place, choice, count, branch)?;
    let block = boxed(alloc, block)?;
    let last = boxed(alloc, last)?;
    let kind = StmtKind::If(test, block, Some(last));
    Ok(Stmt { place, kind })
}

/// Appends `break` where control comes there.
pub fn add_break(
    place: Place,
    label: Option<Text>,
    falls: bool,
    out: &mut List<Stmt>,
) -> Result<(), Memory>
    ensures { OnOk result (map stmt_of out.new.items ≡ map stmt_of out.old.items ++ ended place label falls) }
{
    if falls {
        add(out, place, StmtKind::Break(label))
    } else {
        Ok(())
    }
}

/// The group of a branch, whose statements are these.
#[tactic(auto, using(crate::proofs::Trees::views))]
pub fn group(
    alloc: Global,
    place: Place,
    branch: &[Statement],
    body: List<Stmt>,
) -> Result<Group, Memory>
    ensures { IfOk result (λ g. group_of g ≡ group place (statements branch.now) (map stmt_of body.items)) }
{
    let labels = group_labels(alloc, branch)?;
    Ok(Group {
        labels,
        body,
        end: place,
    })
}

// The label of a group, by the first message of its branch.
fn group_labels(alloc: Global, branch: &[Statement]) -> Result<List<Option<Text>>, Memory>
    ensures { IfOk result (λ ls. ls.items ≡ label_of_group (first_said (statements branch.now))) }
{
    let mut labels = List::new(alloc);
    if let Some(message) = first_message(branch) {
        let label = message.label.copy()?;
        labels.push(Some(label))?;
    }
    Ok(labels)
}

// The message that statements begin with.
#[tactic(auto, using(crate::proofs::Trees::firsts))]
fn first_message(body: &[Statement]) -> Option<&Message>
    ensures { option_map (λ m. m.now) result ≡ first_said (statements body.now) }
{
    match body.first() {
        None => None,
        Some(statement) => match statement {
            Statement::Message(message) => Some(message),
            Statement::Choice { .. } => None,
            Statement::Rec { .. } => None,
            Statement::Continue { .. } => None,
            Statement::Do { .. } => None,
        },
    }
}

/// Another's choice of this number, with the groups of its branches.
#[tactic(auto, using(crate::proofs::Trees::views))]
pub fn other_choice(
    alloc: Global,
    about: &About<'_>,
    number: u32,
    branches: &[List<Statement>],
    groups: List<Group>,
) -> Result<Stmt, Memory>
    ensures { IfOk result (λ s. stmt_of s ≡ other_choice (making about.now) number (bodies branches.now) (map group_of groups.items)) }
{
    let place = about.place;
    let name = look_name(alloc, about, number, branches)?;
    let look = on_role(alloc, place, name, List::new(alloc))?;
    let kind = StmtKind::Switch(look, groups, place);
    Ok(Stmt { place, kind })
}

// The name of the method that looks at the label of a choice.
fn look_name(
    alloc: Global,
    about: &About<'_>,
    number: u32,
    branches: &[List<Statement>],
) -> Result<Text, Memory>
    ensures { IfOk result (λ t. t ≡ label_call (tree_of about.now.local.now).me number
        (peer_of (first_said (first_branch (bodies branches.now))))) }
{
    match branches.first() {
        Some(branch) => match first_message(branch.as_slice()) {
            Some(message) => label_call_name(alloc, about.local, number, message.peer.as_str()),
            None => label_call_name(alloc, about.local, number, ""),
        },
        None => label_call_name(alloc, about.local, number, ""),
    }
}

/// A loop with this label.
#[tactic(auto, using(crate::proofs::Trees::views))]
pub fn looping(alloc: Global, place: Place, label: Text, body: List<Stmt>) -> Result<Stmt, Memory>
    ensures { IfOk result (λ s. stmt_of s ≡ looping place label (map stmt_of body.items)) }
{
    let kind = ExprKind::Truth(true);
    let test = Expr { place, kind };
    let body = boxed(alloc, block(place, body))?;
    let kind = StmtKind::While(Some(label), test, body);
    Ok(Stmt { place, kind })
}

/// Appends that the program goes on as a protocol.
#[tactic(auto, using(crate::proofs::Trees::views))]
pub fn add_part_call(
    alloc: Global,
    about: &About<'_>,
    name: &Text,
    out: &mut List<Stmt>,
) -> Result<(), Memory>
    ensures { OnOk result (map stmt_of out.new.items ≡ map stmt_of out.old.items
        ++ Eval about.now.place (part_call (making about.now) name.now) ∷ []) }
{
    let call = part_call(alloc, about, name)?;
    add(out, about.place, StmtKind::Eval(call))
}
