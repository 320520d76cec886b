//! The expressions that a client is made of.

ghost use Rattle.std.specs.Prelude.{◌≡◌, ◌++◌, [], ◌∷◌, codes, pos, IfOk, OnOk, map};
ghost use Rattle.jv_tree.specs.Source.{Int, Variable, Binary};
ghost use Rattle.jv_tree.specs.View.{expr_of, exprs_of};
ghost use Rattle.stm_client.specs.Client.{counter, on_role, first_value, part_call, is_turn, role};
ghost use Rattle.stm_client.specs.View.{making};

use crate::points::About;
use jv_tree::{Expr, ExprKind, Op};
use mg_text::{List, Memory, Place, Text};
use scr_tree::Payload;
use std::alloc::Global;

/// The name of the role's object.
pub const ROLE: &str = "role";

const LARGEST: u32 = 0x7fff_ffff;

/// A value in a box.
pub fn boxed<T: Drop>(alloc: Global, value: T) -> Result<Box<T>, Memory>
    ensures { IfOk result (λ b. b.value ≡ value) }
{
    Ok(Box::new(alloc, value)?)
}

/// The name of the counter of an own choice.
pub fn counter(alloc: Global, number: u32) -> Result<Text, Memory>
    ensures { IfOk result (λ t. t ≡ counter number) }
{
    let name = format!(in alloc; "chosen{number}")?;
    Ok(Text::from_string(name))
}

/// A number. `Memory` for one that no `int` of Java can be.
#[tactic(auto, using(crate::proofs::Trees::views))]
pub fn number(place: Place, number: u32) -> Result<Expr, Memory>
    ensures { IfOk result (λ e. expr_of e ≡ Int place (pos number)) }
{
    if number > LARGEST {
        return Err(Memory);
    }
    let kind = ExprKind::Int(number as i32);
    Ok(Expr { place, kind })
}

/// A variable.
#[tactic(auto, using(crate::proofs::Trees::views))]
pub fn variable(alloc: Global, place: Place, name: &str) -> Result<Expr, Memory>
    ensures { IfOk result (λ e. expr_of e ≡ Variable place name.now) }
{
    let name = Text::of(alloc, name)?;
    let kind = ExprKind::Name(name);
    Ok(Expr { place, kind })
}

/// Two operands with an operator between them.
#[tactic(auto, using(crate::proofs::Trees::views))]
pub fn binary(alloc: Global, place: Place, op: Op, left: Expr, right: Expr) -> Result<Expr, Memory>
    ensures { IfOk result (λ e. expr_of e ≡ Binary place op (expr_of left) (expr_of right)) }
{
    let left = boxed(alloc, left)?;
    let right = boxed(alloc, right)?;
    let kind = ExprKind::Binary(op, left, right);
    Ok(Expr { place, kind })
}

/// A call on the role's object.
#[tactic(auto, using(crate::proofs::Trees::views))]
pub fn on_role(alloc: Global, place: Place, name: Text, args: List<Expr>) -> Result<Expr, Memory>
    ensures { IfOk result (λ e. expr_of e ≡ on_role place name (map expr_of args.items)) }
{
    let object = variable(alloc, place, ROLE)?;
    let object = boxed(alloc, object)?;
    let kind = ExprKind::MethodCall(object, name, args);
    Ok(Expr { place, kind })
}

/// What is sent: the first value of its type.
#[tactic(auto, using(crate::proofs::Trees::views))]
pub fn first_value(alloc: Global, place: Place, payload: Payload) -> Result<List<Expr>, Memory>
    ensures { IfOk result (λ es. map expr_of es.items ≡ first_value place payload) }
{
    let mut args = List::new(alloc);
    let kind = match payload {
        Payload::Nothing => return Ok(args),
        Payload::Int => ExprKind::Int(0),
        Payload::Boolean => ExprKind::Truth(false),
        Payload::Text => ExprKind::Text(Text::of(alloc, "")?),
    };
    args.push(Expr { place, kind })?;
    Ok(args)
}

/// The call of the method that plays a protocol.
#[tactic(auto, using(crate::proofs::Trees::views))]
pub fn part_call(alloc: Global, about: &About<'_>, name: &Text) -> Result<Expr, Memory>
    ensures { IfOk result (λ e. expr_of e ≡ part_call (making about.now) name.now) }
{
    let name = part_name(alloc, name)?;
    let mut args = List::new(alloc);
    let object = variable(alloc, about.place, ROLE)?;
    args.push(object)?;
    add_variables(alloc, about.place, about.counters, &mut args)?;
    let kind = ExprKind::Call(name, args);
    Ok(Expr {
        place: about.place,
        kind,
    })
}

/// The name of the method that plays a protocol.
pub fn part_name(alloc: Global, name: &Text) -> Result<Text, Memory>
    ensures { IfOk result (λ t. t ≡ codes "as_" ++ name.now) }
{
    joined(alloc, "as_", name.as_str())
}

/// A text with another behind it.
pub fn joined(alloc: Global, text: &str, behind: &str) -> Result<Text, Memory>
    ensures { IfOk result (λ t. t ≡ text.now ++ behind.now) }
{
    let mut joined = String::from_str(alloc, text)?;
    joined.push_str(behind)?;
    Ok(Text::from_string(joined))
}

// Appends a variable for each of these names.
#[tactic(auto, using(crate::proofs::Trees::name_steps))]
fn add_variables(
    alloc: Global,
    place: Place,
    names: &[Text],
    args: &mut List<Expr>,
) -> Result<(), Memory>
    ensures { OnOk result (map expr_of args.new.items ≡ map expr_of args.old.items ++ map (Variable place) names.now) }
{
    for name in names {
        let variable = variable(alloc, place, name.as_str())?;
        args.push(variable)?;
    }
    Ok(())
}

/// Whether the branch of this number, of so many of an own choice, is the one whose turn it is.
pub fn is_turn(
    alloc: Global,
    place: Place,
    choice: u32,
    count: u32,
    branch: u32,
) -> Result<Expr, Memory>
    ensures { IfOk result (λ e. expr_of e ≡ is_turn place choice count branch) }
{
    let name = counter(alloc, choice)?;
    let counter = variable(alloc, place, name.as_str())?;
    let count = number(place, count)?;
    let rest = binary(alloc, place, Op::Rem, counter, count)?;
    let branch = number(place, branch)?;
    binary(alloc, place, Op::Eq, rest, branch)
}
