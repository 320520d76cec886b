//! Annotations of a class (JVMS 4.7.16, 4.7.17): the descriptors of their types, and their elements.
//! A value that holds others is passed over, of which nothing is kept but that it stands there.

ghost use Rattle.std.specs.Prelude.{◌≡◌, [], map};
ghost use Rattle.jcf_tree.specs.Tree.{annotation_of};
ghost use Rattle.jcf_read.specs.Answer.{Gives, folded};
ghost use Rattle.jcf_read.specs.Front.{front_of};
ghost use Rattle.jcf_read.specs.Pool.{pool_of};
ghost use Rattle.jcf_read.specs.Annotations.{constant_of, constant_at, plain_at, behind_values, behind_annotation, element_at, value_at};
ghost use Rattle.jcf_read.specs.Annotations.{deepest, element_turn, annotation_at, annotation_turn, annotations_at};

use crate::constants::both_at;
use crate::fault::{FaultKind, ReadError};
use crate::front::{Front, u1_at, u2_at, wrong};
use crate::pool::{Pool, named_at};
use jcf_tree::{Annotation, Element, ElementValue, Kind};
use mg_text::List;
use std::alloc::Global;

/// How deep values stand in an annotation at most.
const DEEPEST: usize = 200;

/// The kind of constant that a value with this tag names, where it is a number, a character or a truth value.
fn constant_of(tag: u8) -> Option<Kind>
    ensures { result ≡ constant_of tag }
{
    match tag {
        b'B' | b'C' | b'I' | b'S' | b'Z' => Some(Kind::Integer),
        b'D' => Some(Kind::Double),
        b'F' => Some(Kind::Float),
        b'J' => Some(Kind::Long),
        _ => None,
    }
}

/// A number, a character or a truth value; the tag of its value stands at the place `tagged`.
fn constant_at(
    front: Front,
    pool: &Pool,
    kind: Option<Kind>,
    tagged: usize,
    at: usize,
) -> Result<(ElementValue, usize), ReadError>
    ensures { Gives (λ x. x) result (constant_at (pool_of pool.now) kind tagged (front_of front.entry) at) }
{
    let Some(kind) = kind else {
        return Err(wrong(FaultKind::BadAttribute, tagged));
    };
    let (constant, after) = named_at(front, pool, kind, at)?;
    Ok((ElementValue::Constant(constant), after))
}

/// What a value with this tag holds that holds no others; the tag stands at the place `tagged`.
#[tactic(auto, unfolding(crate::specs::Annotations::plain_at))]
fn plain_at(
    front: Front,
    pool: &Pool,
    tag: u8,
    tagged: usize,
    at: usize,
) -> Result<(ElementValue, usize), ReadError>
    ensures { Gives (λ x. x) result (plain_at (pool_of pool.now) tag tagged (front_of front.entry) at) }
{
    match tag {
        b's' => {
            let (text, after) = named_at(front, pool, Kind::Text, at)?;
            Ok((ElementValue::Text(text), after))
        }
        b'c' => {
            let (class, after) = named_at(front, pool, Kind::Text, at)?;
            Ok((ElementValue::Class(class), after))
        }
        b'e' => {
            let ((class, name), after) = both_at(front, pool, Kind::Text, Kind::Text, at)?;
            Ok((ElementValue::EnumConstant(class, name), after))
        }
        _ => constant_at(front, pool, constant_of(tag), tagged, at),
    }
}

/// A value, in which others stand so deep at most.
#[tactic(auto, unfolding(crate::specs::Annotations::value_at))]
#[cycle(values)]
fn value_at(
    front: Front,
    pool: &Pool,
    depth: usize,
    at: usize,
) -> Result<(ElementValue, usize), ReadError>
    ensures { Gives (λ x. x) result (value_at depth (pool_of pool.now) (front_of front.entry) at) }
{
    if depth == 0 {
        return Err(wrong(FaultKind::BadAttribute, at));
    }
    let (tag, content) = u1_at(front, at)?;
    match tag {
        b'[' => {
            let after = behind_values(front, pool, depth - 1, content)?;
            Ok((ElementValue::Array, after))
        }
        b'@' => {
            let after = behind_annotation(front, pool, depth - 1, content)?;
            Ok((ElementValue::Annotation, after))
        }
        _ => plain_at(front, pool, tag, at, content),
    }
}

/// The place behind values in a row, which stand behind their count.
#[tactic(auto, unfolding(crate::specs::Annotations::behind_values))]
#[cycle(values)]
fn behind_values(front: Front, pool: &Pool, depth: usize, at: usize) -> Result<usize, ReadError>
    ensures { Gives (λ x. x) result (behind_values (value_at depth (pool_of pool.now)) (front_of front.entry) at) }
{
    let (count, from) = u2_at(front, at)?;
    let mut place = from;
    'values: for _ in 0..count {
        let (_, after) = value_at(front, pool, depth, place)?;
        place = after;
    }
    Ok(place)
}

/// An element, in whose value others stand so deep at most.
#[tactic(auto, unfolding(crate::specs::Annotations::element_at))]
#[cycle(values)]
fn element_at(
    front: Front,
    pool: &Pool,
    depth: usize,
    at: usize,
) -> Result<(Element, usize), ReadError>
    ensures { Gives (λ x. x) result
        (element_at (pool_of pool.now) (value_at depth (pool_of pool.now)) (front_of front.entry) at) }
{
    let (name, middle) = named_at(front, pool, Kind::Text, at)?;
    let (value, after) = value_at(front, pool, depth, middle)?;
    Ok((Element { name, value }, after))
}

/// The place behind an annotation.
#[tactic(auto, unfolding(crate::specs::Annotations::behind_annotation))]
#[cycle(values)]
fn behind_annotation(front: Front, pool: &Pool, depth: usize, at: usize) -> Result<usize, ReadError>
    ensures { Gives (λ x. x) result
        (behind_annotation (pool_of pool.now) (value_at depth (pool_of pool.now)) (front_of front.entry) at) }
{
    let (_, middle) = named_at(front, pool, Kind::Text, at)?;
    let (count, from) = u2_at(front, middle)?;
    let mut place = from;
    'elements: for _ in 0..count {
        let (_, after) = element_at(front, pool, depth, place)?;
        place = after;
    }
    Ok(place)
}

/// One element more.
#[tactic(auto, unfolding(crate::specs::Annotations::element_turn))]
fn add_element(
    front: Front,
    pool: &Pool,
    elements: &mut List<Element>,
    at: usize,
) -> Result<usize, ReadError>
    ensures { Gives (λ x. (elements.new.items, x)) result
        (element_turn (pool_of pool.now) (front_of front.entry) (elements.old.items, at)) }
{
    let (element, after) = element_at(front, pool, DEEPEST, at)?;
    elements.push(element)?;
    Ok(after)
}

/// So many elements more.
fn add_elements(
    front: Front,
    pool: &Pool,
    elements: &mut List<Element>,
    count: u16,
    at: usize,
) -> Result<usize, ReadError>
    ensures { Gives (λ x. (elements.new.items, x)) result
        (folded (element_turn (pool_of pool.now) (front_of front.entry)) count (elements.old.items, at)) }
{
    let mut place = at;
    for _ in 0..count {
        let after = add_element(front, pool, elements, place)?;
        place = after;
    }
    Ok(place)
}

/// An annotation.
#[tactic(auto, unfolding(crate::specs::Annotations::annotation_at))]
fn annotation_at(
    alloc: Global,
    front: Front,
    pool: &Pool,
    at: usize,
) -> Result<(Annotation, usize), ReadError>
    ensures { Gives (λ x. (annotation_of x.0, x.1)) result (annotation_at (pool_of pool.now) (front_of front.entry) at) }
{
    let (type_descriptor, middle) = named_at(front, pool, Kind::Text, at)?;
    let (count, from) = u2_at(front, middle)?;
    let mut elements = List::new(alloc);
    let after = add_elements(front, pool, &mut elements, count, from)?;
    let annotation = Annotation {
        type_descriptor,
        elements,
    };
    Ok((annotation, after))
}

/// One annotation more.
#[tactic(auto, using(crate::proofs::Lists::pushed), unfolding(crate::specs::Annotations::annotation_turn))]
fn add_annotation(
    alloc: Global,
    front: Front,
    pool: &Pool,
    annotations: &mut List<Annotation>,
    at: usize,
) -> Result<usize, ReadError>
    ensures { Gives (λ x. (map annotation_of annotations.new.items, x)) result
        (annotation_turn (pool_of pool.now) (front_of front.entry) (map annotation_of annotations.old.items, at)) }
{
    let (annotation, after) = annotation_at(alloc, front, pool, at)?;
    annotations.push(annotation)?;
    Ok(after)
}

/// So many annotations more.
fn add_so_many(
    alloc: Global,
    front: Front,
    pool: &Pool,
    annotations: &mut List<Annotation>,
    count: u16,
    at: usize,
) -> Result<usize, ReadError>
    ensures { Gives (λ x. (map annotation_of annotations.new.items, x)) result
        (folded (annotation_turn (pool_of pool.now) (front_of front.entry)) count (map annotation_of annotations.old.items, at)) }
{
    let mut place = at;
    for _ in 0..count {
        let after = add_annotation(alloc, front, pool, annotations, place)?;
        place = after;
    }
    Ok(place)
}

/// The annotations of an attribute, behind those of others before it.
#[tactic(auto, unfolding(crate::specs::Annotations::annotations_at))]
pub(crate) fn add_annotations(
    alloc: Global,
    front: Front,
    pool: &Pool,
    annotations: &mut List<Annotation>,
    at: usize,
) -> Result<usize, ReadError>
    ensures { Gives (λ x. (map annotation_of annotations.new.items, x)) result
        (annotations_at (pool_of pool.now) (front_of front.entry) (map annotation_of annotations.old.items, at)) }
{
    let (count, from) = u2_at(front, at)?;
    add_so_many(alloc, front, pool, annotations, count, from)
}
