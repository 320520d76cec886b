//! Fields and methods as the constants of their class declare them.
//! Nothing is copied: names and descriptors stay those of the pool.

ghost use Rattle.std.specs.Prelude.{◌≡◌};
ghost use Rattle.cls_tree.specs.View.{member_of};
ghost use Rattle.vm_model.specs.Links.{declared};
ghost use Rattle.vm_load.specs.Declaring.{declared_of};

use crate::pool::{or_empty, text_at};
use cls_tree::{Const, Member};

/// A declared field or method.
#[derive(Clone, Copy)]
pub(crate) struct Declared<'a> {
    pub name: &'a str,
    pub descriptor: &'a str,
    pub is_static: bool,
}

/// The access flag of what belongs to a class and not to its objects.
const STATIC: u16 = 8;

/// What a member declares.
pub(crate) fn declared_by<'a>(pool: &'a [Const], member: &Member) -> Declared<'a>
    ensures { declared_of result ≡ declared pool.now (member_of member.now) }
{
    Declared {
        name: or_empty(text_at(pool, member.name)),
        descriptor: or_empty(text_at(pool, member.descriptor)),
        is_static: member.access & STATIC == STATIC,
    }
}
