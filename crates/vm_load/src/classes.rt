//! Classes and their methods: each becomes what it links to, and what is wrong with it is noted.

ghost use Rattle.std.specs.Prelude.{◌≡◌, map, option_map, ◌++◌, IfOk, OnOk};
ghost use Rattle.std.specs.List.{flat_map};
ghost use Rattle.cls_tree.specs.View.{attr_of, code_of, member_of, class_of};
ghost use Rattle.vm_model.specs.View as model;
ghost use Rattle.vm_model.specs.Links.{code_among, method_of_member, method_flaws, field_flaw, method_flaw, field_made, class_flaws};
ghost use Rattle.vm_model.specs.Links.{linked_class, outline, lower, least, some_in};
ghost use Rattle.indexmap.specs.IndexMap.{get};
ghost use Rattle.vm_load.specs.Faults.{best_flaw};
ghost use Rattle.vm_load.specs.Known.{AreRight};
ghost use Rattle.vm_load.specs.Declaring.{declared_of};
ghost use Rattle.vm_load.specs.Outlines.{outline_of, outlines_of, names_of, code_in};

use crate::code::judge_code;
use crate::declared::{Declared, declared_by};
use crate::descriptor::{judge_field, judge_method, judge_super};
use crate::fault::{LoadFault, no_code, note, note_told};
use crate::kept::{linked_field, linked_method};
use crate::outline::Outline;
use crate::pool::{class_at, or_empty};
use crate::same::first_pushes;
use crate::uses::Use;
use cls_tree::{Attr, Class, Code, Const, Member};
use indexmap::IndexMap;
use mg_text::{List, Memory, Names, Text};
use std::alloc::Global;
use vm_model::{LinkedArgs, LinkedClass, LinkedField, LinkedMethod};

/// The code that an attribute is.
#[tactic(auto, using(crate::proofs::Attributes::views))]
fn code_in(attribute: &Attr) -> Option<&Code>
    ensures { option_map (λ c. code_of c.now) result ≡ code_in (attr_of attribute.now) }
{
    match attribute {
        Attr::Code(code) => Some(code),
        Attr::Other { .. } => None,
    }
}

/// The code of a method.
fn code_among(attributes: &[Attr]) -> Option<&Code>
    ensures { option_map (λ c. code_of c.now) result ≡ code_among (map attr_of attributes.now) }
{
    for attribute in attributes {
        let Some(code) = code_in(attribute) else {
            continue;
        };
        return Some(code);
    }
    None
}

/// Appends a method with its code, and notes what is wrong with it. One without code is left out.
fn judge_body(
    alloc: Global,
    outlines: &[Outline<'_>],
    names: &Names,
    pool: &[Const],
    firsts: &[u16],
    known: &mut IndexMap<Use, LinkedArgs>,
    member: &Member,
    methods: &mut List<LinkedMethod>,
    best: &mut Option<LoadFault>,
) -> Result<(), Memory>
    requires names { names.now ≡ names_of (outlines_of outlines.now) }
    requires known { AreRight (outlines_of outlines.now) pool.now (get ⟦<Use as PartialEq>⟧.eq known.old) }
    ensures right { OnOk result (map model.method_of methods.new.items
        ≡ map model.method_of methods.old.items ++ method_of_member (outlines_of outlines.now) pool.now (member_of member.now)) }
    ensures wrong { OnOk result (best_flaw best.new ≡ lower (best_flaw best.old)
        (least (method_flaws (outlines_of outlines.now) pool.now (member_of member.now)))) }
    ensures known { OnOk result (AreRight (outlines_of outlines.now) pool.now (get ⟦<Use as PartialEq>⟧.eq known.new)) }
{
    let declared = declared_by(pool, member);
    let Some(code) = code_among(member.attributes.as_slice()) else {
        return note(best, no_code(alloc, declared.name));
    };
    let instrs = code.instrs.as_slice();
    let instrs = judge_code(alloc, outlines, names, pool, firsts, known, instrs, best)?;
    let method = linked_method(alloc, declared, code, instrs)?;
    methods.push(method)
}

/// The methods of a class with their code. What is wrong with them is noted.
fn judge_bodies(
    alloc: Global,
    outlines: &[Outline<'_>],
    names: &Names,
    class: &Class,
    best: &mut Option<LoadFault>,
) -> Result<List<LinkedMethod>, Memory>
    requires { names.now ≡ names_of (outlines_of outlines.now) }
    ensures right { IfOk result (λ l. map model.method_of l.items
        ≡ flat_map (method_of_member (outlines_of outlines.now) (class_of class.now).pool) (class_of class.now).methods) }
    ensures wrong { OnOk result (best_flaw best.new ≡ lower (best_flaw best.old)
        (least (flat_map (method_flaws (outlines_of outlines.now) (class_of class.now).pool) (class_of class.now).methods))) }
{
    let pool = class.pool.as_slice();
    let firsts = first_pushes(alloc, pool)?;
    let mut known = IndexMap::new(alloc);
    let mut methods = List::new(alloc);
    let members = class.methods.as_slice();
    for member in members {
        judge_body(
            alloc,
            outlines,
            names,
            pool,
            firsts.as_slice(),
            &mut known,
            member,
            &mut methods,
            best,
        )?;
    }
    Ok(methods)
}

/// Notes what is wrong with the descriptors of fields.
fn judge_fields(
    alloc: Global,
    outlines: &[Outline<'_>],
    names: &Names,
    fields: &[Declared<'_>],
    best: &mut Option<LoadFault>,
) -> Result<(), Memory>
    requires { names.now ≡ names_of (outlines_of outlines.now) }
    ensures { OnOk result (best_flaw best.new ≡ lower (best_flaw best.old)
        (least (some_in (map (field_flaw (outlines_of outlines.now)) (map declared_of fields.now))))) }
{
    for field in fields {
        note_told(best, judge_field(alloc, outlines, names, *field))?;
    }
    Ok(())
}

/// Notes what is wrong with the descriptors of methods.
fn judge_methods(
    alloc: Global,
    outlines: &[Outline<'_>],
    names: &Names,
    methods: &[Declared<'_>],
    best: &mut Option<LoadFault>,
) -> Result<(), Memory>
    requires { names.now ≡ names_of (outlines_of outlines.now) }
    ensures { OnOk result (best_flaw best.new ≡ lower (best_flaw best.old)
        (least (some_in (map (method_flaw (outlines_of outlines.now)) (map declared_of methods.now))))) }
{
    for method in methods {
        note_told(best, judge_method(alloc, outlines, names, *method))?;
    }
    Ok(())
}

/// The fields that a class's objects have.
fn fields_of(alloc: Global, own: &[Declared<'_>]) -> Result<List<LinkedField>, Memory>
    ensures { IfOk result (λ l. map model.field_of l.items ≡ map field_made (map declared_of own.now)) }
{
    let mut fields = List::new(alloc);
    for field in own {
        let field = linked_field(alloc, field)?;
        fields.push(field)?;
    }
    Ok(fields)
}

/// A class of these parts.
fn made(
    alloc: Global,
    own: &Outline<'_>,
    methods: List<LinkedMethod>,
) -> Result<LinkedClass, Memory>
    ensures { IfOk result (λ l. model.class_of l
        ≡ record {
          name = (outline_of own.now).name;
          fields = map field_made (outline_of own.now).own;
          methods =
              map model.method_of methods.items;
        }) }
{
    let fields = fields_of(alloc, own.own.all.as_slice())?;
    let name = Text::of(alloc, own.name)?;
    Ok(LinkedClass {
        name,
        fields,
        methods,
    })
}

/// A class, of which this is the outline. What is wrong with it is noted.
pub(crate) fn judge_class(
    alloc: Global,
    outlines: &[Outline<'_>],
    names: &Names,
    own: &Outline<'_>,
    class: &Class,
    best: &mut Option<LoadFault>,
) -> Result<LinkedClass, Memory>
    requires names { names.now ≡ names_of (outlines_of outlines.now) }
    requires own { outline_of own.now ≡ outline (class_of class.now) }
    ensures right { IfOk result (λ l. model.class_of l ≡ linked_class (outlines_of outlines.now) (class_of class.now)) }
    ensures wrong { OnOk result (best_flaw best.new ≡ lower (best_flaw best.old)
        (least (class_flaws (outlines_of outlines.now) (class_of class.now)))) }
{
    let name = or_empty(class_at(class.pool.as_slice(), class.super_class));
    note_told(best, judge_super(alloc, name))?;
    judge_fields(alloc, outlines, names, own.fields.as_slice(), best)?;
    judge_methods(alloc, outlines, names, own.methods.all.as_slice(), best)?;
    let methods = judge_bodies(alloc, outlines, names, class, best)?;
    made(alloc, own, methods)
}
