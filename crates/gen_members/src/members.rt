//! The methods of class files.

ghost use Rattle.std.specs.Prelude.{◌≡◌, None, [], ◌∷◌, IfOk, OnOk, IfErr, length};
ghost use Rattle.cls_tree.specs.View.{code_of, member_of};
ghost use Rattle.cls_tree.specs.Tree as file;
ghost use Rattle.jv_core.specs.Tree.{Program, Class as CoreClass};
ghost use Rattle.gen_expressions.specs.View.{instrs_of};
ghost use Rattle.gen_rules.specs.Classes.{code_in_file, method_in_file};
ghost use Rattle.gen_rules.specs.Limits.{OfMethod, exceeded_by, exceeded_by_code};
ghost use Rattle.gen_pool.specs.Made.{IsMade, IsFrontOf};
ghost use Rattle.gen_members.specs.Laid.{finals};
ghost use Rattle.gen_members.specs.Told.{Tells};
ghost use Rattle.gen_members.specs.Parts.{compiled_of, part_excess, excess_at};

use crate::faults::{GenFault, Telling, judge};
use crate::finals::final_code;
use crate::laying::{Laid, lay_out};
use cls_tree::{Attr, Code, Member};
use gen_expressions::Symbolic;
use gen_pool::{Pool, short};
use jv_core::Core;
use mg_text::{List, Memory, Place};
use std::alloc::Global;

/// A method whose code is made: its access flags, how it is called in the class file, its frame and
/// its code, and where and under which name it is told that it is too large.
#[derive(Drop)]
pub struct Making<'a> {
    pub access: u16,
    pub name: &'a str,
    pub descriptor: String,
    pub max_stack: u32,
    pub max_locals: u32,
    pub instrs: List<Symbolic<'a>>,
    pub place: Place,
    pub told_as: &'a str,
}

/// A list of one item.
fn list_of_one<T: Drop>(alloc: Global, item: T) -> Result<List<T>, Memory>
    ensures { IfOk result (λ list. list.items ≡ item ∷ []) }
{
    let mut list = List::new(alloc);
    list.push(item)?;
    Ok(list)
}

/// The code of a method that is laid out, where the text `Code` has this number in the pool.
fn code_in_file(
    alloc: Global,
    making: &Making<'_>,
    name: usize,
    laid: &Laid,
) -> Result<Code, Memory>
    requires numbers { length laid.now.numbers.items ≡ length making.now.instrs.items }
    requires starts { length laid.now.starts.items ≡ length making.now.instrs.items }
    ensures { IfOk result (λ c. (p : Program) → code_of c ≡ (record {
      name = name;
      max_stack = making.now.max_stack;
      max_locals = making.now.max_locals;
      instrs = finals laid.now.starts.items laid.now.starts.items (instrs_of p making.now.instrs.items) laid.now.numbers.items;
      attributes = [];
    })) }
{
    Ok(Code {
        name: short(name)?,
        max_stack: short(making.max_stack as usize)?,
        max_locals: short(making.max_locals as usize)?,
        instrs: final_code(alloc, making.instrs.as_slice(), laid)?,
        attributes: List::new(alloc),
    })
}

/// A method with its code, where its name and its descriptor have these numbers in the pool.
fn with_code(
    alloc: Global,
    access: u16,
    name: usize,
    descriptor: usize,
    code: Code,
) -> Result<Member, Memory>
    ensures { IfOk result (λ m. member_of m ≡ (record {
      access = access;
      name = name;
      descriptor = descriptor;
      attributes = file.Coded (code_of code) ∷ [];
    })) }
{
    Ok(Member {
        access,
        name: short(name)?,
        descriptor: short(descriptor)?,
        attributes: list_of_one(alloc, Attr::Code(code))?,
    })
}

/// The code of a method alone, as it stands in a class file. What it needs in the pool is made before
/// its sizes are judged. Also after a fault the pool holds its old entries first.
#[tactic(auto, using(gen_pool::proofs::Fronts::fronts))]
pub fn code(
    alloc: Global,
    core: &Core,
    making: &Making<'_>,
    pool: &mut Pool,
) -> Result<Code, GenFault>
    ensures made { IfOk result (λ c. IsMade (code_of c) pool.new (code_in_file (compiled_of core.now making.now) pool.old)) }
    ensures fine { OnOk result (exceeded_by_code (compiled_of core.now making.now) pool.old ≡ None) }
    ensures fault { IfErr result (λ e. Tells (excess_at making.now.place making.now.told_as.now
        (exceeded_by_code (compiled_of core.now making.now) pool.old)) e) }
    ensures kept { IsFrontOf pool.old pool.new }
{
    let instrs = making.instrs.as_slice();
    let old = pool.len();
    let name = pool.utf8("Code")?;
    let laid = lay_out(alloc, core, instrs, pool)?;
    let telling = Telling {
        place: making.place,
        name: making.told_as,
    };
    judge(alloc, telling, laid.end, making.max_locals, pool, old)?;
    Ok(code_in_file(alloc, making, name, &laid)?)
}

/// A method of a class file. What it needs in the pool is made before its sizes are judged.
pub(crate) fn method(
    alloc: Global,
    core: &Core,
    making: &Making<'_>,
    pool: &mut Pool,
) -> Result<Member, GenFault>
    ensures made { IfOk result (λ m. IsMade (member_of m) pool.new (method_in_file (compiled_of core.now making.now) pool.old)) }
    ensures fine { OnOk result ((k : CoreClass) → exceeded_by core.now k (OfMethod (compiled_of core.now making.now))
        pool.old ≡ None) }
    ensures fault { IfErr result (λ e. (k : CoreClass) →
        Tells (part_excess core.now k (OfMethod (compiled_of core.now making.now)) pool.old) e) }
{
    let text = making.descriptor.as_str();
    let instrs = making.instrs.as_slice();
    let old = pool.len();
    let name = pool.utf8(making.name)?;
    let descriptor = pool.utf8(text)?;
    let code_name = pool.utf8("Code")?;
    let laid = lay_out(alloc, core, instrs, pool)?;
    let telling = Telling {
        place: making.place,
        name: making.told_as,
    };
    judge(alloc, telling, laid.end, making.max_locals, pool, old)?;
    let code = code_in_file(alloc, making, code_name, &laid)?;
    Ok(with_code(alloc, making.access, name, descriptor, code)?)
}
