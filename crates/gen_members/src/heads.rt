//! The header and the fields of a class file.

ghost use Rattle.std.specs.Prelude.{◌≡◌, None, map, IfOk, OnOk, IfErr};
ghost use Rattle.cls_tree.specs.View.{member_of};
ghost use Rattle.jv_core.specs.View.{class_of, field_of};
ghost use Rattle.jv_core.specs.Lookup.{text_at};
ghost use Rattle.gen_rules.specs.Classes.{Header, header, field_in_file, each};
ghost use Rattle.gen_rules.specs.Limits.{Names, OfField, exceeded_by};
ghost use Rattle.gen_pool.specs.Made.{IsMade};
ghost use Rattle.gen_members.specs.Told.{Tells};
ghost use Rattle.gen_members.specs.Parts.{part_excess, AreFine, FirstTold};

use crate::descriptors::field_descriptor;
use crate::faults::{GenFault, Telling, judge};
use cls_tree::Member;
use gen_pool::{Pool, class_const, short};
use jv_core::{Core, CoreClass, CoreField, name_text};
use mg_text::List;
use std::alloc::Global;
use vm_model::OBJECT_CLASS;

const PRIVATE: u16 = 2;

/// Where it is told that a part of a class is too large that isn't a written method.
pub(crate) fn told_at<'a>(core: &'a Core, class: &CoreClass) -> Telling<'a>
    ensures place { result.place ≡ class.now.place }
    ensures name { result.name.now ≡ text_at core.now class.now.name.0 }
{
    Telling {
        place: class.place,
        name: name_text(core, class.name),
    }
}

/// The numbers of a class and of its super class, the first constants of a pool.
pub(crate) fn header(
    alloc: Global,
    core: &Core,
    class: &CoreClass,
    pool: &mut Pool,
) -> Result<(u16, u16), GenFault>
    ensures made { IfOk result (λ h. IsMade (record { this_class = h.0; super_class = h.1 }) pool.new
        (header core.now (class_of class.now) pool.old)) }
    ensures fine { OnOk result (exceeded_by core.now (class_of class.now) Names pool.old ≡ None) }
    ensures fault { IfErr result (λ e. Tells (part_excess core.now (class_of class.now) Names pool.old) e) }
{
    let old = pool.len();
    let this_class = class_const(pool, name_text(core, class.name))?;
    let super_class = class_const(pool, OBJECT_CLASS)?;
    judge(alloc, told_at(core, class), 0, 0, pool, old)?;
    Ok((short(this_class)?, short(super_class)?))
}

/// A field of a class file.
fn field_in_file(
    alloc: Global,
    core: &Core,
    class: &CoreClass,
    field: &CoreField,
    pool: &mut Pool,
) -> Result<Member, GenFault>
    ensures made { IfOk result (λ m. IsMade (member_of m) pool.new (field_in_file core.now (field_of field.now) pool.old)) }
    ensures fine { OnOk result (exceeded_by core.now (class_of class.now) (OfField (field_of field.now)) pool.old ≡ None) }
    ensures fault { IfErr result (λ e. Tells (part_excess core.now (class_of class.now) (OfField (field_of field.now)) pool.old)
        e) }
{
    let old = pool.len();
    let name = pool.utf8(name_text(core, field.name))?;
    let descriptor = field_descriptor(alloc, core, field.ty)?;
    let descriptor = pool.utf8(descriptor.as_str())?;
    judge(alloc, told_at(core, class), 0, 0, pool, old)?;
    Ok(Member {
        access: PRIVATE,
        name: short(name)?,
        descriptor: short(descriptor)?,
        attributes: List::new(alloc),
    })
}

/// The fields of a class file, one after another.
pub(crate) fn fields(
    alloc: Global,
    core: &Core,
    class: &CoreClass,
    pool: &mut Pool,
) -> Result<List<Member>, GenFault>
    ensures made { IfOk result (λ ms. IsMade (map member_of ms.items) pool.new
        (each (field_in_file core.now) (class_of class.now).fields pool.old)) }
    ensures fine { OnOk result (AreFine core.now (class_of class.now) (map OfField (class_of class.now).fields) pool.old
        pool.new) }
    ensures fault { IfErr result (FirstTold core.now (class_of class.now) (map OfField (class_of class.now).fields) pool.old) }
{
    let mut members = List::new(alloc);
    for field in class.fields.as_slice() {
        members.push(field_in_file(alloc, core, class, field, pool)?)?;
    }
    Ok(members)
}
