//! The class file as a whole (JVMS 4.1).

ghost use Rattle.std.specs.Prelude.{◌≡◌, [], map};
ghost use Rattle.jcf_tree.specs.Tree.{annotation_of, member_of, class_of};
ghost use Rattle.jcf_read.specs.Answer.{Gives, folded};
ghost use Rattle.jcf_read.specs.Front.{front_of, file};
ghost use Rattle.jcf_read.specs.Pool.{pool_of};
ghost use Rattle.jcf_read.specs.Class.{version_fault, head_at, names_at, interface_turn, interfaces_at, about_turn, about_at};
ghost use Rattle.jcf_read.specs.Class.{both_members_at, contents_at, class_in};

use crate::annotations::add_annotations;
use crate::attributes::{attribute_at, content_of, ends_at, is_named};
use crate::constants::constants_at;
use crate::fault::{FaultKind, ReadError};
use crate::front::{Front, u2_at, u4_at, wrong};
use crate::members::members_at;
use crate::pool::{Pool, named_at, named_or_none_at, pool_at};
use jcf_tree::{Annotation, Class, Const, Kind, Member};
use mg_text::List;
use std::alloc::Global;

/// Where a version is wrong: at its minor number, or at its major one.
#[tactic(auto, unfolding(crate::specs::Class::version_fault))]
fn version_fault(minor: u16, major: u16) -> Option<usize>
    ensures { result ≡ version_fault minor major }
{
    if major == 69 && minor != 0 {
        return Some(4);
    }
    if major < 45 || major > 69 {
        return Some(6);
    }
    None
}

/// What stands before the pool: the place of its count.
#[tactic(auto, unfolding(crate::specs::Class::head_at))]
fn head_at(front: Front) -> Result<usize, ReadError>
    ensures { Gives (λ x. x) result (head_at (front_of front.entry)) }
{
    let (magic, second) = u4_at(front, 0)?;
    if magic != 0xcafe_babe {
        return Err(wrong(FaultKind::BadMagic, 0));
    }
    let (minor, third) = u2_at(front, second)?;
    let (major, after) = u2_at(front, third)?;
    match version_fault(minor, major) {
        Some(offset) => Err(wrong(FaultKind::Version, offset)),
        None => Ok(after),
    }
}

/// Access flags, a class, and its superclass or none.
#[tactic(auto, unfolding(crate::specs::Class::names_at))]
fn names_at(front: Front, pool: &Pool, at: usize) -> Result<((u16, u16, u16), usize), ReadError>
    ensures { Gives (λ x. x) result (names_at (pool_of pool.now) (front_of front.entry) at) }
{
    let (access, second) = u2_at(front, at)?;
    let (this_class, third) = named_at(front, pool, Kind::Class, second)?;
    let (super_class, after) = named_or_none_at(front, pool, Kind::Class, third)?;
    Ok(((access, this_class, super_class), after))
}

/// One interface more.
#[tactic(auto, unfolding(crate::specs::Class::interface_turn))]
fn add_interface(
    front: Front,
    pool: &Pool,
    interfaces: &mut List<u16>,
    at: usize,
) -> Result<usize, ReadError>
    ensures { Gives (λ x. (interfaces.new.items, x)) result
        (interface_turn (pool_of pool.now) (front_of front.entry) (interfaces.old.items, at)) }
{
    let (interface, after) = named_at(front, pool, Kind::Class, at)?;
    interfaces.push(interface)?;
    Ok(after)
}

/// So many interfaces more.
fn add_interfaces(
    front: Front,
    pool: &Pool,
    interfaces: &mut List<u16>,
    count: u16,
    at: usize,
) -> Result<usize, ReadError>
    ensures { Gives (λ x. (interfaces.new.items, x)) result
        (folded (interface_turn (pool_of pool.now) (front_of front.entry)) count (interfaces.old.items, at)) }
{
    let mut place = at;
    for _ in 0..count {
        let after = add_interface(front, pool, interfaces, place)?;
        place = after;
    }
    Ok(place)
}

/// The interfaces, behind their count.
#[tactic(auto, unfolding(crate::specs::Class::interfaces_at))]
fn interfaces_at(
    alloc: Global,
    front: Front,
    pool: &Pool,
    at: usize,
) -> Result<(List<u16>, usize), ReadError>
    ensures { Gives (λ x. (x.0.items, x.1)) result (interfaces_at (pool_of pool.now) (front_of front.entry) at) }
{
    let (count, from) = u2_at(front, at)?;
    let mut interfaces = List::new(alloc);
    let after = add_interfaces(front, pool, &mut interfaces, count, from)?;
    Ok((interfaces, after))
}

/// One attribute of a class more: the name of its source file and annotations are read, others aren't.
#[tactic(auto, unfolding(crate::specs::Class::about_turn))]
fn add_about(
    alloc: Global,
    front: Front,
    pool: &Pool,
    constants: &[Const],
    source_file: u16,
    annotations: &mut List<Annotation>,
    at: usize,
) -> Result<(u16, usize), ReadError>
    ensures { Gives (λ x. (x.0, map annotation_of annotations.new.items, x.1)) result
        (about_turn (pool_of pool.now) constants.now (front_of front.entry) (source_file, map annotation_of annotations.old.items, at)) }
{
    let attribute = attribute_at(front, pool, at)?;
    let content = content_of(front, attribute.to);
    if is_named(constants, attribute.name, b"SourceFile") {
        let (name, end) = named_at(content, pool, Kind::Text, attribute.from)?;
        let after = ends_at(end, attribute.to)?;
        return Ok((name, after));
    }
    if is_named(constants, attribute.name, b"RuntimeVisibleAnnotations")
        || is_named(constants, attribute.name, b"RuntimeInvisibleAnnotations")
    {
        let end = add_annotations(alloc, content, pool, annotations, attribute.from)?;
        let after = ends_at(end, attribute.to)?;
        return Ok((source_file, after));
    }
    Ok((source_file, attribute.to))
}

/// So many attributes of a class.
fn about_of(
    alloc: Global,
    front: Front,
    pool: &Pool,
    constants: &[Const],
    annotations: &mut List<Annotation>,
    count: u16,
    at: usize,
) -> Result<(u16, usize), ReadError>
    ensures { Gives (λ x. (x.0, map annotation_of annotations.new.items, x.1)) result
        (folded (about_turn (pool_of pool.now) constants.now (front_of front.entry)) count
        (0, map annotation_of annotations.old.items, at)) }
{
    let mut source_file = 0;
    let mut place = at;
    for _ in 0..count {
        let (name, after) = add_about(
            alloc,
            front,
            pool,
            constants,
            source_file,
            annotations,
            place,
        )?;
        source_file = name;
        place = after;
    }
    Ok((source_file, place))
}

/// The attributes of a class, behind their count.
#[tactic(auto, unfolding(crate::specs::Class::about_at))]
fn about_at(
    alloc: Global,
    front: Front,
    pool: &Pool,
    constants: &[Const],
    at: usize,
) -> Result<(u16, List<Annotation>, usize), ReadError>
    ensures { Gives (λ x. (x.0, map annotation_of x.1.items, x.2)) result
        (about_at (pool_of pool.now) constants.now (front_of front.entry) at) }
{
    let (count, from) = u2_at(front, at)?;
    let mut annotations = List::new(alloc);
    let (source_file, after) = about_of(
        alloc,
        front,
        pool,
        constants,
        &mut annotations,
        count,
        from,
    )?;
    Ok((source_file, annotations, after))
}

/// Fields and methods.
#[tactic(auto, unfolding(crate::specs::Class::both_members_at))]
fn both_members_at(
    alloc: Global,
    front: Front,
    pool: &Pool,
    constants: &[Const],
    at: usize,
) -> Result<(List<Member>, List<Member>, usize), ReadError>
    ensures { Gives (λ x. (map member_of x.0.items, map member_of x.1.items, x.2)) result
        (both_members_at (pool_of pool.now) constants.now (front_of front.entry) at) }
{
    let (fields, middle) = members_at(alloc, front, pool, constants, false, at)?;
    let (methods, after) = members_at(alloc, front, pool, constants, true, middle)?;
    Ok((fields, methods, after))
}

/// What stands behind the count of this pool, up to the end of the file.
#[tactic(auto, unfolding(crate::specs::Class::contents_at))]
fn contents_at(alloc: Global, front: Front, pool: &Pool, at: usize) -> Result<Class, ReadError>
    ensures { Gives class_of result (contents_at (pool_of pool.now) (front_of front.entry) at) }
{
    let (constants, second) = constants_at(alloc, front, pool, at)?;
    let ((access, this_class, super_class), third) = names_at(front, pool, second)?;
    let (interfaces, fourth) = interfaces_at(alloc, front, pool, third)?;
    let (fields, methods, fifth) = both_members_at(
        alloc,
        front,
        pool,
        constants.as_slice(),
        fourth,
    )?;
    let (source_file, annotations, end) = about_at(
        alloc,
        front,
        pool,
        constants.as_slice(),
        fifth,
    )?;
    if end != front.bytes.len() {
        return Err(wrong(FaultKind::TrailingBytes, end));
    }
    Ok(Class {
        constants,
        access,
        this_class,
        super_class,
        interfaces,
        fields,
        methods,
        source_file,
        annotations,
    })
}

/// The class that all of the bytes spell.
#[tactic(auto, unfolding(crate::specs::Class::class_in))]
pub(crate) fn class_in(alloc: Global, bytes: &[u8]) -> Result<Class, ReadError>
    ensures { Gives class_of result (class_in bytes.now) }
{
    let front = Front {
        bytes,
        cut: FaultKind::Short,
    };
    let second = head_at(front)?;
    let (count, from) = u2_at(front, second)?;
    if count == 0 {
        return Err(wrong(FaultKind::BadIndex, second));
    }
    let pool = pool_at(alloc, bytes, count, from)?;
    contents_at(alloc, front, &pool, from)
}
