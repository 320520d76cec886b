//! Fields and methods (JVMS 4.5, 4.6), of which methods have code.

ghost use Rattle.std.specs.Prelude.{◌≡◌, [], None, option_map, map};
ghost use Rattle.jcf_tree.specs.Tree.{code_of, member_of};
ghost use Rattle.jcf_read.specs.Answer.{Gives, folded};
ghost use Rattle.jcf_read.specs.Front.{front_of};
ghost use Rattle.jcf_read.specs.Pool.{pool_of};
ghost use Rattle.jcf_read.specs.Members.{coded_at, code_turn, codes_at, head_at, member_at, member_turn, members_at};

use crate::attributes::{Attribute, attribute_at, content_of, ends_at, is_named};
use crate::codes::code_at;
use crate::fault::{FaultKind, ReadError};
use crate::front::{Front, u2_at, wrong};
use crate::pool::{Pool, named_at};
use jcf_tree::{Code, Const, Kind, Member};
use mg_text::List;
use std::alloc::Global;

/// The code that is this attribute.
#[tactic(auto, unfolding(crate::specs::Members::coded_at))]
fn coded_at(
    alloc: Global,
    front: Front,
    pool: &Pool,
    constants: &[Const],
    attribute: Attribute,
) -> Result<(Code, usize), ReadError>
    ensures { Gives (λ x. (code_of x.0, x.1)) result (coded_at (pool_of pool.now) constants.now (front_of front.entry) attribute) }
{
    let content = content_of(front, attribute.to);
    let (code, end) = code_at(alloc, content, pool, constants, attribute.from)?;
    let after = ends_at(end, attribute.to)?;
    Ok((code, after))
}

/// One attribute of a member more: a method's code is read, others aren't.
#[tactic(auto, unfolding(crate::specs::Members::code_turn))]
fn code_behind(
    alloc: Global,
    front: Front,
    pool: &Pool,
    constants: &[Const],
    is_method: bool,
    code: Option<Code>,
    at: usize,
) -> Result<(Option<Code>, usize), ReadError>
    ensures { Gives (λ x. (option_map code_of x.0, x.1)) result
        (code_turn (pool_of pool.now) constants.now is_method (front_of front.entry) (option_map code_of code, at)) }
{
    let attribute = attribute_at(front, pool, at)?;
    if !is_method || !is_named(constants, attribute.name, b"Code") {
        return Ok((code, attribute.to));
    }
    if code.is_some() {
        return Err(wrong(FaultKind::BadAttribute, at));
    }
    let (found, after) = coded_at(alloc, front, pool, constants, attribute)?;
    Ok((Some(found), after))
}

/// So many attributes of a member.
fn codes_of(
    alloc: Global,
    front: Front,
    pool: &Pool,
    constants: &[Const],
    is_method: bool,
    count: u16,
    at: usize,
) -> Result<(Option<Code>, usize), ReadError>
    ensures { Gives (λ x. (option_map code_of x.0, x.1)) result
        (folded (code_turn (pool_of pool.now) constants.now is_method (front_of front.entry)) count (None, at)) }
{
    let mut code = None;
    let mut place = at;
    for _ in 0..count {
        let (found, after) = code_behind(alloc, front, pool, constants, is_method, code, place)?;
        code = found;
        place = after;
    }
    Ok((code, place))
}

/// The attributes of a member, behind their count.
#[tactic(auto, unfolding(crate::specs::Members::codes_at))]
fn codes_at(
    alloc: Global,
    front: Front,
    pool: &Pool,
    constants: &[Const],
    is_method: bool,
    at: usize,
) -> Result<(Option<Code>, usize), ReadError>
    ensures { Gives (λ x. (option_map code_of x.0, x.1)) result
        (codes_at (pool_of pool.now) constants.now is_method (front_of front.entry) at) }
{
    let (count, from) = u2_at(front, at)?;
    codes_of(alloc, front, pool, constants, is_method, count, from)
}

/// The access flags of a member, its name and its descriptor.
#[tactic(auto, unfolding(crate::specs::Members::head_at))]
fn head_at(front: Front, pool: &Pool, at: usize) -> Result<((u16, u16, u16), usize), ReadError>
    ensures { Gives (λ x. x) result (head_at (pool_of pool.now) (front_of front.entry) at) }
{
    let (access, second) = u2_at(front, at)?;
    let (name, third) = named_at(front, pool, Kind::Text, second)?;
    let (descriptor, after) = named_at(front, pool, Kind::Text, third)?;
    Ok(((access, name, descriptor), after))
}

/// A field or a method.
#[tactic(auto, unfolding(crate::specs::Members::member_at))]
fn member_at(
    alloc: Global,
    front: Front,
    pool: &Pool,
    constants: &[Const],
    is_method: bool,
    at: usize,
) -> Result<(Member, usize), ReadError>
    ensures { Gives (λ x. (member_of x.0, x.1)) result
        (member_at (pool_of pool.now) constants.now is_method (front_of front.entry) at) }
{
    let ((access, name, descriptor), middle) = head_at(front, pool, at)?;
    let (code, after) = codes_at(alloc, front, pool, constants, is_method, middle)?;
    let member = Member {
        access,
        name,
        descriptor,
        code,
    };
    Ok((member, after))
}

/// One field or method more.
#[tactic(auto, using(crate::proofs::Lists::pushed), unfolding(crate::specs::Members::member_turn))]
fn add_member(
    alloc: Global,
    front: Front,
    pool: &Pool,
    constants: &[Const],
    are_methods: bool,
    members: &mut List<Member>,
    at: usize,
) -> Result<usize, ReadError>
    ensures { Gives (λ x. (map member_of members.new.items, x)) result
        (member_turn (pool_of pool.now) constants.now are_methods (front_of front.entry) (map member_of members.old.items, at)) }
{
    let (member, after) = member_at(alloc, front, pool, constants, are_methods, at)?;
    members.push(member)?;
    Ok(after)
}

/// So many fields or methods more.
fn add_members(
    alloc: Global,
    front: Front,
    pool: &Pool,
    constants: &[Const],
    are_methods: bool,
    members: &mut List<Member>,
    count: u16,
    at: usize,
) -> Result<usize, ReadError>
    ensures { Gives (λ x. (map member_of members.new.items, x)) result
        (folded (member_turn (pool_of pool.now) constants.now are_methods (front_of front.entry)) count
        (map member_of members.old.items, at)) }
{
    let mut place = at;
    for _ in 0..count {
        let after = add_member(alloc, front, pool, constants, are_methods, members, place)?;
        place = after;
    }
    Ok(place)
}

/// Fields or methods, behind their count.
#[tactic(auto, unfolding(crate::specs::Members::members_at))]
pub(crate) fn members_at(
    alloc: Global,
    front: Front,
    pool: &Pool,
    constants: &[Const],
    are_methods: bool,
    at: usize,
) -> Result<(List<Member>, usize), ReadError>
    ensures { Gives (λ x. (map member_of x.0.items, x.1)) result
        (members_at (pool_of pool.now) constants.now are_methods (front_of front.entry) at) }
{
    let (count, from) = u2_at(front, at)?;
    let mut members = List::new(alloc);
    let after = add_members(
        alloc,
        front,
        pool,
        constants,
        are_methods,
        &mut members,
        count,
        from,
    )?;
    Ok((members, after))
}
