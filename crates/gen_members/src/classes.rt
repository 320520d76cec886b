//! A class file, of a class whose methods are made.

ghost use Rattle.std.specs.Prelude.{◌≡◌, [], None, map, IfOk, OnOk, IfErr};
ghost use Rattle.cls_tree.specs.View.{member_of, class_of as file_of};
ghost use Rattle.jv_core.specs.Tree.{Class as CoreClassOf};
ghost use Rattle.jv_core.specs.View.{class_of};
ghost use Rattle.gen_rules.specs.Classes.{method_in_file, each, class_file};
ghost use Rattle.gen_rules.specs.Limits.{OfMethod, parts_in, first_in_parts};
ghost use Rattle.gen_pool.specs.Made.{IsMade};
ghost use Rattle.gen_members.specs.Told.{Tells};
ghost use Rattle.gen_members.specs.Parts.{compiled_of, AreFine, FirstTold};

use crate::faults::GenFault;
use crate::heads::{fields, header};
use crate::members::{Making, method};
use cls_tree::{Class, Member};
use gen_pool::Pool;
use jv_core::{Core, CoreClass};
use mg_text::List;
use std::alloc::Global;

const PUBLIC_SUPER: u16 = 33;

/// The methods of a class file, one after another.
fn methods(
    alloc: Global,
    core: &Core,
    makings: &[Making<'_>],
    pool: &mut Pool,
) -> Result<List<Member>, GenFault>
    ensures made { IfOk result (λ ms. IsMade (map member_of ms.items) pool.new
        (each method_in_file (map (compiled_of core.now) makings.now) pool.old)) }
    ensures fine { OnOk result ((k : CoreClassOf) →
        AreFine core.now k (map OfMethod (map (compiled_of core.now) makings.now)) pool.old pool.new) }
    ensures fault { IfErr result (λ e. (k : CoreClassOf) →
        FirstTold core.now k (map OfMethod (map (compiled_of core.now) makings.now)) pool.old e) }
{
    let mut members = List::new(alloc);
    for making in makings {
        members.push(method(alloc, core, making, pool)?)?;
    }
    Ok(members)
}

/// The class file of a class whose methods are these, its constructor first; or the first of its
/// sizes that is too large.
pub fn class_file(
    alloc: Global,
    core: &Core,
    class: &CoreClass,
    makings: &[Making<'_>],
) -> Result<Class, GenFault>
    ensures made { IfOk result (λ f. file_of f ≡ class_file core.now (class_of class.now)
        (map (compiled_of core.now) makings.now)) }
    ensures fine { OnOk result (first_in_parts core.now (class_of class.now)
        (parts_in (class_of class.now) (map (compiled_of core.now) makings.now)) [] ≡ None) }
    ensures fault { IfErr result (λ e. Tells (first_in_parts core.now (class_of class.now)
        (parts_in (class_of class.now) (map (compiled_of core.now) makings.now)) []) e) }
{
    let mut pool = Pool::new(alloc);
    let (this_class, super_class) = header(alloc, core, class, &mut pool)?;
    let fields = fields(alloc, core, class, &mut pool)?;
    let methods = methods(alloc, core, makings, &mut pool)?;
    Ok(Class {
        pool: pool.into_consts(alloc)?,
        access: PUBLIC_SUPER,
        this_class,
        super_class,
        fields,
        methods,
        attributes: List::new(alloc),
    })
}
