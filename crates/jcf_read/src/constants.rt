//! The constants of the pool (JVMS 4.4), one behind the other.

ghost use Rattle.std.specs.Prelude.{◌≡◌, [], false};
ghost use Rattle.jcf_read.specs.Answer.{Gives, folded};
ghost use Rattle.jcf_read.specs.Front.{front_of};
ghost use Rattle.jcf_read.specs.Pool.{pool_of};
ghost use Rattle.jcf_read.specs.Constants.{text_at, halves_at, both_at, used_as, handle_at, linked_at, tagged_at, later_tagged_at};
ghost use Rattle.jcf_read.specs.Constants.{const_at, is_two, const_turn, constants_at};

use crate::fault::{FaultKind, ReadError};
use crate::front::{Front, run_of, u1_at, u2_at, u4_at, wrong};
use crate::letters::is_modified;
use crate::pool::{Pool, is_tag, named_at};
use jcf_tree::{Const, Kind};
use mg_text::{Bytes, List};
use std::alloc::Global;

/// A text behind its length.
#[tactic(auto, unfolding(crate::specs::Constants::text_at))]
fn text_at(alloc: Global, front: Front, at: usize) -> Result<(Bytes, usize), ReadError>
    ensures { Gives (λ x. x) result (text_at (front_of front.entry) at) }
{
    let (length, from) = u2_at(front, at)?;
    let (bytes, after) = run_of(front, from, length as usize)?;
    if !is_modified(bytes) {
        return Err(wrong(FaultKind::BadText, from));
    }
    let text = Bytes::of(alloc, bytes)?;
    Ok((text, after))
}

/// The two halves of a long or a double.
#[tactic(auto, unfolding(crate::specs::Constants::halves_at))]
fn halves_at(front: Front, at: usize) -> Result<((u32, u32), usize), ReadError>
    ensures { Gives (λ x. x) result (halves_at (front_of front.entry) at) }
{
    let (high, middle) = u4_at(front, at)?;
    let (low, after) = u4_at(front, middle)?;
    Ok(((high, low), after))
}

/// The numbers of two constants of these kinds.
#[tactic(auto, unfolding(crate::specs::Constants::both_at))]
pub(crate) fn both_at(
    front: Front,
    pool: &Pool,
    first: Kind,
    second: Kind,
    at: usize,
) -> Result<((u16, u16), usize), ReadError>
    ensures { Gives (λ x. x) result (both_at (pool_of pool.now) first second (front_of front.entry) at) }
{
    let (one, middle) = named_at(front, pool, first, at)?;
    let (two, after) = named_at(front, pool, second, middle)?;
    Ok(((one, two), after))
}

/// What is used by a handle of this kind.
fn used_as(kind: u8) -> Kind
    ensures { result ≡ used_as kind }
{
    match kind {
        1..=4 => Kind::Field,
        5 | 8 => Kind::Method,
        6 | 7 => Kind::AnyMethod,
        9 => Kind::InterfaceMethod,
        _ => Kind::Nothing,
    }
}

/// The kind of a handle, and what is used by it.
#[tactic(auto, unfolding(crate::specs::Constants::handle_at))]
fn handle_at(front: Front, pool: &Pool, at: usize) -> Result<((u8, u16), usize), ReadError>
    ensures { Gives (λ x. x) result (handle_at (pool_of pool.now) (front_of front.entry) at) }
{
    let (kind, middle) = u1_at(front, at)?;
    let (used, after) = named_at(front, pool, used_as(kind), middle)?;
    Ok(((kind, used), after))
}

/// The number of a bootstrap method, and a name and type.
#[tactic(auto, unfolding(crate::specs::Constants::linked_at))]
fn linked_at(front: Front, pool: &Pool, at: usize) -> Result<((u16, u16), usize), ReadError>
    ensures { Gives (λ x. x) result (linked_at (pool_of pool.now) (front_of front.entry) at) }
{
    let (bootstrap, middle) = u2_at(front, at)?;
    let (member, after) = named_at(front, pool, Kind::NameAndType, middle)?;
    Ok(((bootstrap, member), after))
}

/// What a constant with this tag holds, which stands before this place.
#[tactic(auto, unfolding(crate::specs::Constants::tagged_at))]
fn tagged_at(
    alloc: Global,
    front: Front,
    pool: &Pool,
    tag: u8,
    at: usize,
) -> Result<(Const, usize), ReadError>
    ensures { Gives (λ x. x) result (tagged_at (pool_of pool.now) tag (front_of front.entry) at) }
{
    match tag {
        1 => {
            let (text, after) = text_at(alloc, front, at)?;
            Ok((Const::Text(text), after))
        }
        3 => {
            let (bits, after) = u4_at(front, at)?;
            Ok((Const::Integer(bits.cast_signed()), after))
        }
        4 => {
            let (bits, after) = u4_at(front, at)?;
            Ok((Const::Float(bits), after))
        }
        5 => {
            let ((high, low), after) = halves_at(front, at)?;
            Ok((Const::Long(high, low), after))
        }
        6 => {
            let ((high, low), after) = halves_at(front, at)?;
            Ok((Const::Double(high, low), after))
        }
        7 => {
            let (name, after) = named_at(front, pool, Kind::Text, at)?;
            Ok((Const::Class(name), after))
        }
        8 => {
            let (text, after) = named_at(front, pool, Kind::Text, at)?;
            Ok((Const::String(text), after))
        }
        9 => {
            let ((class, member), after) = both_at(
                front,
                pool,
                Kind::Class,
                Kind::NameAndType,
                at,
            )?;
            Ok((Const::Field(class, member), after))
        }
        10 => {
            let ((class, member), after) = both_at(
                front,
                pool,
                Kind::Class,
                Kind::NameAndType,
                at,
            )?;
            Ok((Const::Method(class, member), after))
        }
        11 => {
            let ((class, member), after) = both_at(
                front,
                pool,
                Kind::Class,
                Kind::NameAndType,
                at,
            )?;
            Ok((Const::InterfaceMethod(class, member), after))
        }
        12 => {
            let ((name, descriptor), after) = both_at(front, pool, Kind::Text, Kind::Text, at)?;
            Ok((Const::NameAndType(name, descriptor), after))
        }
        _ => later_tagged_at(front, pool, tag, at),
    }
}

/// What a constant holds with a tag that class files have from version 51 on.
#[tactic(auto, unfolding(crate::specs::Constants::later_tagged_at))]
fn later_tagged_at(
    front: Front,
    pool: &Pool,
    tag: u8,
    at: usize,
) -> Result<(Const, usize), ReadError>
    ensures { Gives (λ x. x) result (later_tagged_at (pool_of pool.now) tag (front_of front.entry) at) }
{
    match tag {
        15 => {
            let ((kind, used), after) = handle_at(front, pool, at)?;
            Ok((Const::MethodHandle(kind, used), after))
        }
        16 => {
            let (descriptor, after) = named_at(front, pool, Kind::Text, at)?;
            Ok((Const::MethodType(descriptor), after))
        }
        17 => {
            let ((bootstrap, member), after) = linked_at(front, pool, at)?;
            Ok((Const::Dynamic(bootstrap, member), after))
        }
        18 => {
            let ((bootstrap, member), after) = linked_at(front, pool, at)?;
            Ok((Const::DynamicCall(bootstrap, member), after))
        }
        19 => {
            let (name, after) = named_at(front, pool, Kind::Text, at)?;
            Ok((Const::Module(name), after))
        }
        _ => {
            let (name, after) = named_at(front, pool, Kind::Text, at)?;
            Ok((Const::Package(name), after))
        }
    }
}

/// A constant.
#[tactic(auto, unfolding(crate::specs::Constants::const_at))]
fn const_at(
    alloc: Global,
    front: Front,
    pool: &Pool,
    at: usize,
) -> Result<(Const, usize), ReadError>
    ensures { Gives (λ x. x) result (const_at (pool_of pool.now) (front_of front.entry) at) }
{
    let (tag, content) = u1_at(front, at)?;
    if !is_tag(tag) {
        return Err(wrong(FaultKind::BadTag, at));
    }
    tagged_at(alloc, front, pool, tag, content)
}

/// Whether a constant takes two numbers.
fn is_two(constant: &Const) -> bool
    ensures { result ≡ is_two constant.now }
{
    matches!(constant, Const::Long(_, _) | Const::Double(_, _))
}

/// The constant of one more number: the second one of a long or a double, or the one that begins at this place.
#[tactic(auto, unfolding(crate::specs::Constants::const_turn))]
fn add_constant(
    alloc: Global,
    front: Front,
    pool: &Pool,
    constants: &mut List<Const>,
    is_second: bool,
    at: usize,
) -> Result<(bool, usize), ReadError>
    ensures { Gives (λ x. (constants.new.items, x.0, x.1)) result
        (const_turn (pool_of pool.now) (front_of front.entry) (constants.old.items, is_second, at)) }
{
    if is_second {
        constants.push(Const::Unused)?;
        return Ok((false, at));
    }
    let (constant, after) = const_at(alloc, front, pool, at)?;
    let is_wide = is_two(&constant);
    constants.push(constant)?;
    Ok((is_wide, after))
}

/// The constants of so many numbers.
fn constants_of(
    alloc: Global,
    front: Front,
    pool: &Pool,
    count: u16,
    at: usize,
) -> Result<(List<Const>, bool, usize), ReadError>
    ensures { Gives (λ x. (x.0.items, x.1, x.2)) result
        (folded (const_turn (pool_of pool.now) (front_of front.entry)) count ([], false, at)) }
{
    let mut constants = List::new(alloc);
    let mut is_second = false;
    let mut place = at;
    for _ in 0..count {
        let (is_wide, after) = add_constant(alloc, front, pool, &mut constants, is_second, place)?;
        is_second = is_wide;
        place = after;
    }
    Ok((constants, is_second, place))
}

/// All constants of the pool.
#[tactic(auto, unfolding(crate::specs::Constants::constants_at))]
pub(crate) fn constants_at(
    alloc: Global,
    front: Front,
    pool: &Pool,
    at: usize,
) -> Result<(List<Const>, usize), ReadError>
    ensures { Gives (λ x. (x.0.items, x.1)) result (constants_at (pool_of pool.now) (front_of front.entry) at) }
{
    let (constants, is_second, after) = constants_of(
        alloc,
        front,
        pool,
        pool.count.saturating_sub(1),
        at,
    )?;
    if is_second {
        return Err(wrong(FaultKind::BadIndex, after));
    }
    Ok((constants, after))
}
