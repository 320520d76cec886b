//! What the constants of a class mean behind opcodes, each judged once.
//! What was right is remembered; its texts are shared.

ghost use Rattle.std.specs.Prelude.{◌≡◌, Ok, List as Seq, IfOk, IfSome};
ghost use Rattle.indexmap.specs.IndexMap.{get};
ghost use Rattle.cls_tree.specs.declared.class.Const.{Const as ConstOf};
ghost use Rattle.vm_model.specs.View.{args_of};
ghost use Rattle.vm_model.specs.Links.{judged_pool, Outline as OutlineOf};
ghost use Rattle.vm_load.specs.Faults.{Judges};
ghost use Rattle.vm_load.specs.Outlines.{outlines_of, names_of};
ghost use Rattle.vm_load.specs.Known.{AreRight};

use crate::fault::LoadFault;
use crate::outline::Outline;
use crate::reference::judge_pool;
use crate::same::same_constant;
use cls_tree::Const;
use indexmap::IndexMap;
use mg_text::{Memory, Names};
use std::alloc::Global;
use vm_model::LinkedArgs;

/// A constant behind an opcode.
#[derive(Clone, Copy, PartialEq, Eq, Hash)]
pub(crate) struct Use {
    op: u8,
    number: u16,
}

/// The same as these, where a constant may mean it.
fn shared(args: &LinkedArgs) -> Result<Option<LinkedArgs>, Memory>
    ensures { IfOk result (λ r. IfSome r (λ a. args_of a ≡ args_of args.now)) }
{
    match args {
        LinkedArgs::None => Ok(Some(LinkedArgs::None)),
        LinkedArgs::Int(value) => Ok(Some(LinkedArgs::Int(*value))),
        LinkedArgs::Text(text) => {
            let text = text.clone()?;
            Ok(Some(LinkedArgs::Text(text)))
        }
        LinkedArgs::Class(class) => Ok(Some(LinkedArgs::Class(*class))),
        LinkedArgs::Field { class, field } => Ok(Some(LinkedArgs::Field {
            class: *class,
            field: *field,
        })),
        LinkedArgs::Method { class, method } => Ok(Some(LinkedArgs::Method {
            class: *class,
            method: *method,
        })),
        LinkedArgs::Built(built) => Ok(Some(LinkedArgs::Built(*built))),
        _ => Ok(None),
    }
}

/// What is remembered of a constant behind an opcode.
fn remembered(known: &IndexMap<Use, LinkedArgs>, key: Use) -> Result<Option<LinkedArgs>, Memory>
    ensures { (os : Seq OutlineOf) → (pool : Seq ConstOf) → AreRight os pool (get ⟦<Use as PartialEq>⟧.eq known.now) →
        IfOk result (λ r. IfSome r (λ a. judged_pool os pool key.op key.number ≡ Ok (args_of a))) }
{
    match known.get(&key) {
        Some(args) => shared(args),
        None => Ok(None),
    }
}

/// Remembers what a constant means behind an opcode.
fn remember(
    known: &mut IndexMap<Use, LinkedArgs>,
    key: Use,
    args: &LinkedArgs,
) -> Result<(), Memory>
    ensures { (os : Seq OutlineOf) → (pool : Seq ConstOf) → AreRight os pool (get ⟦<Use as PartialEq>⟧.eq known.old) →
        judged_pool os pool key.op key.number ≡ Ok (args_of args.now) → AreRight os pool (get ⟦<Use as PartialEq>⟧.eq known.new) }
{
    let Some(args) = shared(args)? else {
        return Ok(());
    };
    known.insert(key, args)?;
    Ok(())
}

/// What the number of a constant means behind an opcode, which is looked up where it is known.
fn judge_known(
    alloc: Global,
    outlines: &[Outline<'_>],
    names: &Names,
    pool: &[Const],
    known: &mut IndexMap<Use, LinkedArgs>,
    op: u8,
    number: u16,
) -> Result<LinkedArgs, LoadFault>
    requires names { names.now ≡ names_of (outlines_of outlines.now) }
    requires known { AreRight (outlines_of outlines.now) pool.now (get ⟦<Use as PartialEq>⟧.eq known.old) }
    ensures judges { Judges args_of result (judged_pool (outlines_of outlines.now) pool.now op number) }
    ensures known { AreRight (outlines_of outlines.now) pool.now (get ⟦<Use as PartialEq>⟧.eq known.new) }
{
    let key = Use { op, number };
    if let Some(args) = remembered(known, key)? {
        return Ok(args);
    }
    match judge_pool(alloc, outlines, names, pool, op, number) {
        Ok(args) => {
            remember(known, key, &args)?;
            Ok(args)
        }
        Err(fault) => Err(fault),
    }
}

/// The same, where constants that push one text are as one.
pub(crate) fn judge_use(
    alloc: Global,
    outlines: &[Outline<'_>],
    names: &Names,
    pool: &[Const],
    firsts: &[u16],
    known: &mut IndexMap<Use, LinkedArgs>,
    op: u8,
    number: u16,
) -> Result<LinkedArgs, LoadFault>
    requires names { names.now ≡ names_of (outlines_of outlines.now) }
    requires known { AreRight (outlines_of outlines.now) pool.now (get ⟦<Use as PartialEq>⟧.eq known.old) }
    ensures judges { Judges args_of result (judged_pool (outlines_of outlines.now) pool.now op number) }
    ensures known { AreRight (outlines_of outlines.now) pool.now (get ⟦<Use as PartialEq>⟧.eq known.new) }
{
    let same = same_constant(pool, firsts, number);
    judge_known(alloc, outlines, names, pool, known, op, same)
}
