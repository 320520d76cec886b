//! The classes that are loaded together, by what their constants say: names and declared members.
//! Classes and members are found by their names in tables.

ghost use Rattle.std.specs.Prelude.{◌≡◌, map, IfOk};
ghost use Rattle.std.specs.List.{filter};
ghost use Rattle.cls_tree.specs.View.{class_of, member_of};
ghost use Rattle.vm_model.specs.Links.{outline, declared, is_dynamic};
ghost use Rattle.vm_load.specs.Declaring.{declared_of};
ghost use Rattle.vm_load.specs.Outlines.{outline_of, outlines_of, names_of};

use crate::declared::{Declared, declared_by};
use crate::members::Members;
use crate::pool::{class_at, or_empty};
use cls_tree::{Class, Const, Member};
use mg_text::Memory;
use std::alloc::Global;

/// A class: its name and its declared members.
pub(crate) struct Outline<'a> {
    pub name: &'a str,
    pub fields: Vec<Declared<'a>>,
    /// The fields that aren't static.
    pub own: Members<'a>,
    pub methods: Members<'a>,
}

// One call lets go of it, wherever a function ends.
impl Drop for Outline<'_> {
    fn drop(self) {
        let Outline {
            name: _,
            fields: _,
            own: _,
            methods: _,
        } = self;
    }
}

/// What members declare.
fn all_declared<'a>(
    alloc: Global,
    pool: &'a [Const],
    members: &[Member],
) -> Result<Vec<Declared<'a>>, Memory>
    ensures { IfOk result (λ v. map declared_of v.items ≡ map (declared pool.now) (map member_of members.now)) }
{
    let mut all = Vec::new(alloc);
    for member in members {
        let one = declared_by(pool, member);
        all.push(one)?;
    }
    Ok(all)
}

/// Those of fields that aren't static.
fn own_of<'a>(alloc: Global, fields: &[Declared<'a>]) -> Result<Vec<Declared<'a>>, Memory>
    ensures { IfOk result (λ v. map declared_of v.items ≡ filter is_dynamic (map declared_of fields.now)) }
{
    let mut own = Vec::new(alloc);
    for field in fields {
        if field.is_static {
            continue;
        }
        own.push(*field)?;
    }
    Ok(own)
}

/// The outline of a class.
pub(crate) fn outlined<'a>(alloc: Global, class: &'a Class) -> Result<Outline<'a>, Memory>
    ensures { IfOk result (λ o. outline_of o ≡ outline (class_of class.now)) }
{
    let pool = class.pool.as_slice();
    let fields = all_declared(alloc, pool, class.fields.as_slice())?;
    let own = Members::new(alloc, own_of(alloc, fields.as_slice())?)?;
    let methods = Members::new(alloc, all_declared(alloc, pool, class.methods.as_slice())?)?;
    Ok(Outline {
        name: or_empty(class_at(pool, class.this_class)),
        fields,
        own,
        methods,
    })
}

/// The outlines of classes.
pub(crate) fn outlines<'a>(alloc: Global, classes: &'a [Class]) -> Result<Vec<Outline<'a>>, Memory>
    ensures { IfOk result (λ v. outlines_of v.items ≡ map outline (map class_of classes.now)) }
{
    let mut all = Vec::new(alloc);
    for class in classes {
        let one = outlined(alloc, class)?;
        all.push(one)?;
    }
    Ok(all)
}
