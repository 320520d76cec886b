//! Classes and the typestates that they name: one that isn't there, and what a class without one
//! can't have.

ghost use Rattle.std.specs.Prelude.{◌≡◌, IfOk, map, option_map};
ghost use Rattle.jv_tree.specs.View.{class_of};
ghost use Rattle.jv_rules.specs.inner.Deciding.{first_by};
ghost use Rattle.jv_types.specs.inner.Blaming.{blamed_of};
ghost use Rattle.jv_types.specs.inner.Declaring.{unknown_typestate, plain_member, plain_in_class};
ghost use Rattle.jv_types.specs.inner.Kept.{typestate_in};
ghost use Rattle.jv_types.specs.inner.Repeating.{member_seen};
ghost use Rattle.jv_types.specs.inner.Tabled.{class_in};

use crate::blame::Blamed;
use crate::entry::ClassEntry;
use crate::merged::{Member, members};
use jv_tree::Class;
use mg_text::{Memory, Text};
use std::alloc::Global;

// The typestate that a class names, where it isn't there.
fn unknown_of<'a>(entry: &ClassEntry<'a>) -> Option<Blamed<'a>>
    ensures { option_map blamed_of result ≡ unknown_typestate (typestate_in entry.now) (class_in entry.now) }
{
    let Some(name) = &entry.class.typestate else {
        return None;
    };
    if entry.typestate.is_some() {
        return None;
    }
    let place = entry.class.place;
    let name = name.as_str();
    Some(Blamed { place, name })
}

/// The first typestate that a class names and that isn't there.
pub(crate) fn unknown_typestate<'a>(entries: &[ClassEntry<'a>]) -> Option<Blamed<'a>>
    ensures { option_map blamed_of result ≡ first_by (λ e. unknown_typestate (typestate_in e) (class_in e)) entries.now }
{
    for item in entries {
        let found = unknown_of(item);
        if found.is_some() {
            return found;
        }
    }
    None
}

// A member, where it is one of objects and its class has no typestate.
fn plain_member<'a>(typestate: &Option<Text>, member: Member<'a>) -> Option<Blamed<'a>>
    ensures { option_map blamed_of result ≡ plain_member typestate.now (member_seen member.entry) }
{
    if typestate.is_some() {
        return None;
    }
    match member {
        Member::Field(field) => {
            let place = field.place;
            Some(Blamed { place, name: "" })
        }
        Member::Method(method) => {
            if method.is_static {
                return None;
            }
            let place = method.place;
            Some(Blamed { place, name: "" })
        }
    }
}

fn plain_in<'a>(typestate: &Option<Text>, members: &[Member<'a>]) -> Option<Blamed<'a>>
    ensures { option_map blamed_of result ≡ first_by (plain_member typestate.now) (map member_seen members.now) }
{
    for item in members {
        let found = plain_member(typestate, *item);
        if found.is_some() {
            return found;
        }
    }
    None
}

fn plain_in_class<'a>(alloc: Global, class: &'a Class) -> Result<Option<Blamed<'a>>, Memory>
    ensures { IfOk result (λ o. option_map blamed_of o ≡ plain_in_class (class_of class.now)) }
{
    let members = members(alloc, class)?;
    Ok(plain_in(&class.typestate, members.as_slice()))
}

/// The first field or instance method in a class without a typestate.
pub(crate) fn instance_in_plain<'a>(
    alloc: Global,
    entries: &[ClassEntry<'a>],
) -> Result<Option<Blamed<'a>>, Memory>
    ensures { IfOk result (λ o. option_map blamed_of o ≡ first_by plain_in_class (map class_in entries.now)) }
{
    for item in entries {
        let found = plain_in_class(alloc, item.class)?;
        if found.is_some() {
            return Ok(found);
        }
    }
    Ok(None)
}
