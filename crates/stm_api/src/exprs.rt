//! The expressions that API methods are made of.

ghost use Rattle.std.specs.Prelude.{◌≡◌, ◌++◌, [], ◌∷◌, IfOk, OnOk, map};
ghost use Rattle.jv_tree.specs.Source.{Text as Quoted, Variable, MethodCall};
ghost use Rattle.jv_tree.specs.View.{expr_of, exprs_of};
ghost use Rattle.stm_api.specs.Api.{session, constant};

use jv_tree::{Expr, ExprKind, SessionCall};
use mg_text::{List, Memory, Place, Text};
use std::alloc::Global;

/// A value in a box.
pub fn boxed<T: Drop>(alloc: Global, value: T) -> Result<Box<T>, Memory>
    ensures { IfOk result (λ b. b.value ≡ value) }
{
    Ok(Box::new(alloc, value)?)
}

/// Appends a text to arguments.
#[tactic(auto, using(crate::proofs::Trees::views))]
pub fn add_text(
    alloc: Global,
    args: &mut List<Expr>,
    place: Place,
    text: &str,
) -> Result<(), Memory>
    ensures { OnOk result (map expr_of args.new.items ≡ map expr_of args.old.items ++ Quoted place text.now ∷ []) }
{
    let text = Text::of(alloc, text)?;
    args.push(Expr {
        place,
        kind: ExprKind::Text(text),
    })
}

/// Appends a variable to arguments.
#[tactic(auto, using(crate::proofs::Trees::views))]
pub fn add_variable(
    alloc: Global,
    args: &mut List<Expr>,
    place: Place,
    name: &str,
) -> Result<(), Memory>
    ensures { OnOk result (map expr_of args.new.items ≡ map expr_of args.old.items ++ Variable place name.now ∷ []) }
{
    let name = Text::of(alloc, name)?;
    args.push(Expr {
        place,
        kind: ExprKind::Name(name),
    })
}

// A variable, or the name of a class.
#[tactic(auto, using(crate::proofs::Trees::views))]
fn variable(alloc: Global, place: Place, name: &str) -> Result<Box<Expr>, Memory>
    ensures { IfOk result (λ b. expr_of b.value ≡ Variable place name.now) }
{
    let name = Text::of(alloc, name)?;
    let kind = ExprKind::Name(name);
    boxed(alloc, Expr { place, kind })
}

/// A constant of an enum.
#[tactic(auto, using(crate::proofs::Trees::views))]
pub fn constant(alloc: Global, place: Place, of: &str, name: &str) -> Result<Expr, Memory>
    ensures { IfOk result (λ e. expr_of e ≡ constant place of.now name.now) }
{
    let of = variable(alloc, place, of)?;
    let name = Text::of(alloc, name)?;
    Ok(Expr {
        place,
        kind: ExprKind::Member(of, name),
    })
}

/// A call on a variable or a class.
#[tactic(auto, using(crate::proofs::Trees::views))]
pub fn call_on(
    alloc: Global,
    place: Place,
    of: &str,
    name: &str,
    args: List<Expr>,
) -> Result<Expr, Memory>
    ensures { IfOk result (λ e. expr_of e ≡ MethodCall place (Variable place of.now) name.now (exprs_of (map expr_of args.items))) }
{
    let of = variable(alloc, place, of)?;
    let name = Text::of(alloc, name)?;
    Ok(Expr {
        place,
        kind: ExprKind::MethodCall(of, name, args),
    })
}

/// A call on the session.
pub fn session(
    alloc: Global,
    place: Place,
    call: SessionCall,
    args: List<Expr>,
) -> Result<Expr, Memory>
    ensures { IfOk result (λ e. expr_of e ≡ session place call (map expr_of args.items)) }
{
    call_on(alloc, place, "Session", call.method().name, args)
}
