//! What is known of the constants before they are read: their tags, as far as they can be laid out.
//! By these each number of a constant is judged where it stands.

ghost use Rattle.std.specs.Prelude.{◌≡◌, ◌-◌, false, drop, get_or, IfOk};
ghost use Rattle.jcf_read.specs.Answer.{Gives};
ghost use Rattle.jcf_read.specs.Front.{front_of};
ghost use Rattle.jcf_read.specs.Pool.{pool_of, is_tag, is_wide, holds, tags_from, pool_at, is_wrong, named_at, named_or_none_at};

use crate::fault::{FaultKind, ReadError};
use crate::front::{Front, u2_at, wrong};
use jcf_code::{byte_of, tail};
use jcf_tree::{Kind, is_of};
use mg_text::{List, Memory};
use std::alloc::Global;

/// The count of the pool, and the tags of its constants, as far as they can be laid out.
/// Where a number is the second of a long or a double, its tag is 0.
#[derive(Drop)]
pub(crate) struct Pool {
    pub count: u16,
    pub tags: List<u8>,
}

/// Whether a number is the tag of a constant (JVMS 4.4).
pub(crate) fn is_tag(tag: u8) -> bool
    ensures { result ≡ is_tag tag }
{
    tag == 1 || (3 <= tag && tag <= 12) || (15 <= tag && tag <= 20)
}

/// Whether a constant with this tag takes two numbers.
pub(crate) fn is_wide(tag: u8) -> bool
    ensures { result ≡ is_wide tag }
{
    tag == 5 || tag == 6
}

/// How many bytes a constant with this tag has behind it, of which these are the first.
fn holds(tag: u8, content: &[u8]) -> usize
    ensures { result ≡ holds tag content.now }
{
    match tag {
        1 => 2 + 256 * byte_of(content, 0) as usize + byte_of(content, 1) as usize,
        5 | 6 => 8,
        7 | 8 | 16 | 19 | 20 => 2,
        15 => 3,
        _ => 4,
    }
}

/// The tags of so many numbers, from these bytes on.
#[tactic(auto, unfolding(crate::specs::Pool::tags_from))]
fn tags_of(alloc: Global, count: u16, bytes: &[u8]) -> Result<List<u8>, Memory>
    ensures { IfOk result (λ tags. tags.items ≡ tags_from count false bytes.now) }
{
    let mut tags = List::new(alloc);
    let mut rest = bytes;
    let mut is_second = false;
    for _ in 0..count {
        if is_second {
            tags.push(0)?;
            is_second = false;
            continue;
        }
        let [tag, content @ ..] = rest else {
            return Ok(tags);
        };
        if !is_tag(*tag) {
            return Ok(tags);
        }
        tags.push(*tag)?;
        is_second = is_wide(*tag);
        rest = tail(content, holds(*tag, content));
    }
    Ok(tags)
}

/// The pool of this count, whose constants begin at a place.
pub(crate) fn pool_at(alloc: Global, bytes: &[u8], count: u16, at: usize) -> Result<Pool, Memory>
    ensures { IfOk result (λ p. pool_of p ≡ pool_at count (drop at bytes.now)) }
{
    let tags = tags_of(alloc, count.saturating_sub(1), tail(bytes, at))?;
    Ok(Pool { count, tags })
}

/// Whether the constant of this number can't be one of the kind.
#[tactic(auto, unfolding(crate::specs::Pool::is_wrong))]
pub(crate) fn is_wrong(pool: &Pool, kind: Kind, number: u16) -> bool
    ensures { result ≡ is_wrong (pool_of pool.now) kind number }
{
    if number == 0 || number >= pool.count {
        return true;
    }
    let tags = pool.tags.as_slice();
    let index = number as usize - 1;
    index < tags.len() && !is_of(kind, tags[index])
}

/// The number of a constant of this kind.
#[tactic(auto, unfolding(crate::specs::Pool::named_at))]
pub(crate) fn named_at(
    front: Front,
    pool: &Pool,
    kind: Kind,
    at: usize,
) -> Result<(u16, usize), ReadError>
    ensures { Gives (λ x. x) result (named_at (pool_of pool.now) kind (front_of front.entry) at) }
{
    let (number, after) = u2_at(front, at)?;
    if is_wrong(pool, kind, number) {
        return Err(wrong(FaultKind::BadIndex, at));
    }
    Ok((number, after))
}

/// The number of a constant of this kind, or 0.
#[tactic(auto, unfolding(crate::specs::Pool::named_or_none_at))]
pub(crate) fn named_or_none_at(
    front: Front,
    pool: &Pool,
    kind: Kind,
    at: usize,
) -> Result<(u16, usize), ReadError>
    ensures { Gives (λ x. x) result (named_or_none_at (pool_of pool.now) kind (front_of front.entry) at) }
{
    let (number, after) = u2_at(front, at)?;
    if number != 0 && is_wrong(pool, kind, number) {
        return Err(wrong(FaultKind::BadIndex, at));
    }
    Ok((number, after))
}
