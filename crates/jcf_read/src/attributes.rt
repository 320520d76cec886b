//! Attributes (JVMS 4.7): where each lies, and how it is named.

ghost use Rattle.std.specs.Prelude.{◌≡◌, take};
ghost use Rattle.jcf_read.specs.Answer.{Gives};
ghost use Rattle.jcf_read.specs.Front.{front_of, content};
ghost use Rattle.jcf_read.specs.Pool.{pool_of};
ghost use Rattle.jcf_read.specs.Attributes.{attribute_at, is_text, is_named, ends_at};

use crate::fault::{FaultKind, ReadError};
use crate::front::{Front, run_of, u4_at, wrong};
use crate::pool::{Pool, named_at};
use jcf_tree::{Const, Kind};

/// An attribute: the number of its name, and the places at which its content begins and ends.
#[derive(Clone, Copy)]
pub(crate) struct Attribute {
    pub name: u16,
    pub from: usize,
    pub to: usize,
}

/// The attribute at a place.
#[tactic(auto, unfolding(crate::specs::Attributes::attribute_at))]
pub(crate) fn attribute_at(front: Front, pool: &Pool, at: usize) -> Result<Attribute, ReadError>
    ensures { Gives (λ x. x) result (attribute_at (pool_of pool.now) (front_of front.entry) at) }
{
    let (name, middle) = named_at(front, pool, Kind::Text, at)?;
    let (length, from) = u4_at(front, middle)?;
    let (_, to) = run_of(front, from, length as usize)?;
    Ok(Attribute { name, from, to })
}

/// The content of an attribute that ends at this place.
pub(crate) fn content_of(front: Front, to: usize) -> Front
    ensures { front_of result ≡ content to (front_of front.entry) }
{
    let bytes = if to <= front.bytes.len() {
        &front.bytes[..to]
    } else {
        front.bytes
    };
    Front {
        bytes,
        cut: FaultKind::BadAttribute,
    }
}

/// What was read of an attribute's content, if it ends where the attribute does.
#[tactic(auto, unfolding(crate::specs::Attributes::ends_at))]
pub(crate) fn ends_at(at: usize, to: usize) -> Result<usize, ReadError>
    ensures { Gives (λ x. x) result (ends_at at to) }
{
    if at != to {
        return Err(wrong(FaultKind::BadAttribute, at));
    }
    Ok(to)
}

/// Whether a constant is this text.
fn is_text(constant: &Const, text: &[u8]) -> bool
    ensures { result ≡ is_text constant.now text.now }
{
    match constant {
        Const::Text(bytes) => bytes.as_slice() == text,
        _ => false,
    }
}

/// Whether a number is that of a constant that is this text.
#[tactic(auto, unfolding(crate::specs::Attributes::is_named))]
pub(crate) fn is_named(constants: &[Const], number: u16, text: &[u8]) -> bool
    ensures { result ≡ is_named constants.now number text.now }
{
    if number == 0 || number as usize > constants.len() {
        return false;
    }
    is_text(&constants[number as usize - 1], text)
}
