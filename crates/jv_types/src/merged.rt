//! The members of a class in the order of the text: its fields and its methods, merged by their
//! places.

ghost use Rattle.std.specs.Prelude.{◌≡◌, ◌++◌, map, IfOk, OnOk};
ghost use Rattle.jv_tree.specs.View.{class_of, method_of};
ghost use Rattle.jv_rules.specs.Members.{OfMethod, is_before, methods_before, methods_from, members_of};
ghost use Rattle.jv_types.specs.inner.Repeating.{member_seen};

use jv_tree::{Class, Field, MethodDecl};
use mg_text::{Memory, Place};
use std::alloc::Global;

/// A field or a method.
#[derive(Clone, Copy)]
pub(crate) enum Member<'a> {
    Field(&'a Field),
    Method(&'a MethodDecl),
}

// Whether a place stands before another one of its file.
fn is_before(place: Place, other: Place) -> bool
    ensures { result ≡ is_before place other }
{
    if place.line < other.line {
        return true;
    }
    if place.line != other.line {
        return false;
    }
    place.column < other.column
}

// Adds the methods at the front that stand before a place. The others are left.
fn add_before<'a>(
    members: &mut Vec<Member<'a>>,
    place: Place,
    methods: &'a [MethodDecl],
) -> Result<&'a [MethodDecl], Memory>
    ensures rest { IfOk result (λ rest. map method_of rest.now ≡ methods_from place (map method_of methods.now)) }
    ensures items { OnOk result (map member_seen members.new.items ≡ map member_seen members.old.items
        ++ map OfMethod (methods_before place (map method_of methods.now))) }
{
    let mut rest = methods;
    'front: while let Some((method, more)) = rest.split_first() {
        if !is_before(method.place, place) {
            return Ok(rest);
        }
        members.push(Member::Method(method))?;
        rest = more;
    }
    Ok(rest)
}

// Adds methods.
fn add_methods<'a>(members: &mut Vec<Member<'a>>, methods: &'a [MethodDecl]) -> Result<(), Memory>
    ensures { OnOk result (map member_seen members.new.items ≡ map member_seen members.old.items
        ++ map OfMethod (map method_of methods.now)) }
{
    for method in methods {
        members.push(Member::Method(method))?;
    }
    Ok(())
}

/// The members of a class, in the order of the text. At equal places a field comes first.
pub(crate) fn members<'a>(alloc: Global, class: &'a Class) -> Result<Vec<Member<'a>>, Memory>
    ensures { IfOk result (λ ms. map member_seen ms.items ≡ members_of (class_of class.now)) }
{
    let mut members = Vec::new(alloc);
    let mut methods = class.methods.as_slice();
    for field in class.fields.as_slice() {
        methods = add_before(&mut members, field.place, methods)?;
        members.push(Member::Field(field))?;
    }
    add_methods(&mut members, methods)?;
    Ok(members)
}
