//! The code of a method: its instructions, what they name looked up, and their jumps as numbers.

ghost use Rattle.std.specs.Prelude.{◌≡◌, ◌<◌, ◌+◌, ◌*◌, ◌^◌, ◌+ℤ◌, pos, map, length, IfOk, OnOk, ◌++◌, ◌∷◌, [], Result, Ok};
ghost use Rattle.indexmap.specs.IndexMap.{get};
ghost use Rattle.cls_tree.specs.View.{instr_of, instrs_of};
ghost use Rattle.cls_tree.specs.View as file;
ghost use Rattle.cls_tree.specs.Layout.{pad, instr_bytes};
ghost use Rattle.cls_tree.specs.Jumps.{starts_from};
ghost use Rattle.vm_model.specs.View.{args_of};
ghost use Rattle.vm_model.specs.View as model;
ghost use Rattle.vm_model.specs.Links.{started, judged_instr_args, judged_instr, judged_from, judged_code, with_op, right_in, wrong_in};
ghost use Rattle.vm_model.specs.Links.{lower, least};
ghost use Rattle.vm_model.specs.Program.{Table, Instr as InstrOf};
ghost use Rattle.vm_model.specs.Links.{Flaw};
ghost use Rattle.vm_load.specs.Faults.{Judges, best_flaw};
ghost use Rattle.vm_load.specs.Outlines.{outlines_of, names_of};
ghost use Rattle.vm_load.specs.Known.{AreRight};
ghost use Rattle.vm_load.specs.Width.{args_width, width};
ghost use Rattle.vm_load.specs.Places.{AreRising};

use crate::fault::{LoadFault, note, unknown_member};
use crate::fit::fits_code;
use crate::outline::Outline;
use crate::uses::{Use, judge_use};
use cls_tree::{Args, Const, Form, Instr, form_of};
use indexmap::IndexMap;
use mg_text::{List, Memory, Names};
use std::alloc::Global;
use vm_model::{LinkedArgs, LinkedInstr};

/// How many bytes stand behind an opcode.
fn args_width(place: usize, form: Option<Form>, args: &Args) -> usize
    ensures value { result ≡ args_width place form (file.args_of args.now) }
    ensures bound { result < 2 ^ 40 }
{
    match (form, args) {
        (Some(Form::Byte), Args::Number(_)) => 1,
        (Some(Form::Short), Args::Number(_)) => 2,
        (Some(Form::Local), Args::Local(_)) => 1,
        (Some(Form::Increment), Args::Add(_, _)) => 2,
        (Some(Form::Jump), Args::Jump(_)) => 2,
        (Some(Form::Table), Args::Table { offsets, .. }) => {
            3 - place % 4 + 12 + 4 * offsets.len()
        }
        (Some(Form::NearConstant), Args::Pool(_)) => 1,
        (Some(Form::Constant | Form::Field | Form::Method | Form::Class), Args::Pool(_)) => 2,
        _ => 0,
    }
}

/// How many bytes an instruction takes at a place.
#[tactic(auto, using(crate::proofs::Widths::widths))]
fn width(place: usize, instr: &Instr) -> usize
    ensures value { result ≡ length (instr_bytes place (instr_of instr.now)) }
    ensures bound { result < 2 ^ 41 }
{
    1 + args_width(place, form_of(instr.op), &instr.args)
}

/// The places at which instructions start.
fn starts_of(alloc: Global, instrs: &[Instr]) -> Result<Vec<u32>, Memory>
    ensures starts { IfOk result (λ v. v.items ≡ starts_from 0 (instrs_of instrs.now)) }
    ensures rising { IfOk result (λ v. AreRising v.items) }
{
    let mut starts = Vec::new(alloc);
    let mut place: usize = 0;
    for instr in instrs {
        if place > 0xffff_ffff {
            return Err(Memory);
        }
        starts.push(place as u32)?;
        place += width(place, instr);
    }
    Ok(starts)
}

/// A number in a list, as far as lists go.
fn listed(number: usize) -> Result<u32, Memory>
    ensures { IfOk result (λ n. n ≡ number) }
{
    if number > 0xffff_ffff {
        return Err(Memory);
    }
    Ok(number as u32)
}

/// The number of the instruction that starts at a place, which is found by halving.
fn number_of(starts: &[u32], place: u32) -> Result<u32, Memory>
    requires { AreRising starts.now }
    ensures { IfOk result (λ n. n ≡ started starts.now (pos place)) }
{
    match starts.binary_search(&place) {
        Ok(number) => listed(number),
        Err(_next) => listed(starts.len()),
    }
}

/// The number of the instruction that starts at a place, or how many instructions there are.
fn number_at(starts: &[u32], place: i64) -> Result<u32, Memory>
    requires { AreRising starts.now }
    ensures { IfOk result (λ n. n ≡ started starts.now place) }
{
    if place < 0 {
        return listed(starts.len());
    }
    if place > 0xffff_ffff {
        return listed(starts.len());
    }
    number_of(starts, place as u32)
}

/// The place that is so far from another.
fn place_from(place: usize, distance: i32) -> i64
    requires { place < 2 ^ 33 }
    ensures { result ≡ pos place +ℤ distance }
{
    place as i64 + i64::from(distance)
}

/// The number of the instruction to which a jump leads.
fn target(starts: &[u32], place: usize, distance: i32) -> Result<u32, Memory>
    requires rising { AreRising starts.now }
    requires place { place < 2 ^ 33 }
    ensures { IfOk result (λ n. n ≡ started starts.now (pos place +ℤ distance)) }
{
    number_at(starts, place_from(place, distance))
}

/// The numbers of the instructions to which the jumps of a table lead.
fn targets(
    alloc: Global,
    starts: &[u32],
    place: usize,
    offsets: &[i32],
) -> Result<List<u32>, Memory>
    requires rising { AreRising starts.now }
    requires place { place < 2 ^ 33 }
    ensures { IfOk result (λ l. l.items ≡ map (λ d. started starts.now (pos place +ℤ d)) offsets.now) }
{
    let mut all = List::new(alloc);
    for offset in offsets {
        let one = target(starts, place, *offset)?;
        all.push(one)?;
    }
    Ok(all)
}

/// What a table works with.
fn table(
    alloc: Global,
    starts: &[u32],
    place: usize,
    default: i32,
    low: i32,
    offsets: &[i32],
) -> Result<LinkedArgs, Memory>
    requires rising { AreRising starts.now }
    requires place { place < 2 ^ 33 }
    ensures { IfOk result (λ a. args_of a ≡ Table (started starts.now (pos place +ℤ default)) low
        (map (λ d. started starts.now (pos place +ℤ d)) offsets.now)) }
{
    let default = target(starts, place, default)?;
    let targets = targets(alloc, starts, place, offsets)?;
    Ok(LinkedArgs::Table {
        default,
        low,
        targets,
    })
}

/// What an instruction works with that stands at a place.
fn judge_args(
    alloc: Global,
    outlines: &[Outline<'_>],
    names: &Names,
    pool: &[Const],
    firsts: &[u16],
    known: &mut IndexMap<Use, LinkedArgs>,
    starts: &[u32],
    place: usize,
    instr: &Instr,
) -> Result<LinkedArgs, LoadFault>
    requires names { names.now ≡ names_of (outlines_of outlines.now) }
    requires rising { AreRising starts.now }
    requires place { place < 2 ^ 33 }
    requires known { AreRight (outlines_of outlines.now) pool.now (get ⟦<Use as PartialEq>⟧.eq known.old) }
    ensures judges { Judges args_of result (judged_instr_args (outlines_of outlines.now) pool.now starts.now place instr.now.op
        (file.args_of instr.now.args)) }
    ensures known { AreRight (outlines_of outlines.now) pool.now (get ⟦<Use as PartialEq>⟧.eq known.new) }
{
    match &instr.args {
        Args::None => Ok(LinkedArgs::None),
        Args::Number(number) => Ok(LinkedArgs::Int(i32::from(*number))),
        Args::Local(local) => Ok(LinkedArgs::Local(*local)),
        Args::Pool(number) => {
            judge_use(
                alloc, outlines, names, pool, firsts, known, instr.op, *number,
            )
        }
        Args::Jump(distance) => {
            let target = target(starts, place, i32::from(*distance))?;
            Ok(LinkedArgs::Jump(target))
        }
        Args::Add(local, number) => Ok(LinkedArgs::Add(*local, *number)),
        Args::Table {
            default,
            low,
            offsets,
        } => {
            let args = table(alloc, starts, place, *default, *low, offsets.as_slice())?;
            Ok(args)
        }
    }
}

/// An instruction of a code of so many, where these are arguments of its opcode.
#[tactic(auto, using(crate::proofs::Judged::judges))]
fn fitting(alloc: Global, count: usize, op: u8, args: LinkedArgs) -> Result<LinkedInstr, LoadFault>
    ensures { Judges model.instr_of result (with_op count op (Ok (args_of args))) }
{
    let instr = LinkedInstr { op, args };
    if fits_code(count, &instr) {
        return Ok(instr);
    }
    drop(instr);
    Err(unknown_member(alloc, ""))
}

/// An instruction that stands at a place.
#[tactic(auto, using(crate::proofs::Judged::with_ops))]
fn judge_instr(
    alloc: Global,
    outlines: &[Outline<'_>],
    names: &Names,
    pool: &[Const],
    firsts: &[u16],
    known: &mut IndexMap<Use, LinkedArgs>,
    starts: &[u32],
    place: usize,
    instr: &Instr,
) -> Result<LinkedInstr, LoadFault>
    requires names { names.now ≡ names_of (outlines_of outlines.now) }
    requires rising { AreRising starts.now }
    requires place { place < 2 ^ 33 }
    requires known { AreRight (outlines_of outlines.now) pool.now (get ⟦<Use as PartialEq>⟧.eq known.old) }
    ensures judges { Judges model.instr_of result (judged_instr (outlines_of outlines.now) pool.now starts.now place (instr_of instr.now)) }
    ensures known { AreRight (outlines_of outlines.now) pool.now (get ⟦<Use as PartialEq>⟧.eq known.new) }
{
    match judge_args(
        alloc, outlines, names, pool, firsts, known, starts, place, instr,
    ) {
        Ok(args) => fitting(alloc, starts.len(), instr.op, args),
        Err(fault) => Err(fault),
    }
}

/// Appends an instruction that is right, and notes what is wrong.
#[tactic(auto, using(crate::proofs::Lower::kept))]
fn add(
    code: &mut List<LinkedInstr>,
    best: &mut Option<LoadFault>,
    judged: Result<LinkedInstr, LoadFault>,
) -> Result<(), Memory>
    ensures right { (wanted : Result InstrOf Flaw) → Judges model.instr_of judged wanted →
        OnOk result (map model.instr_of code.new.items ≡ map model.instr_of code.old.items ++ right_in (wanted ∷ [])) }
    ensures wrong { (wanted : Result InstrOf Flaw) → Judges model.instr_of judged wanted →
        OnOk result (best_flaw best.new ≡ lower (best_flaw best.old) (least (wrong_in (wanted ∷ [])))) }
{
    match judged {
        Ok(instr) => code.push(instr),
        Err(fault) => note(best, fault),
    }
}

/// The instructions of a code in which instructions start at these places. What is wrong with them
/// is noted.
fn judge_from(
    alloc: Global,
    outlines: &[Outline<'_>],
    names: &Names,
    pool: &[Const],
    firsts: &[u16],
    known: &mut IndexMap<Use, LinkedArgs>,
    starts: &[u32],
    instrs: &[Instr],
    best: &mut Option<LoadFault>,
) -> Result<List<LinkedInstr>, Memory>
    requires names { names.now ≡ names_of (outlines_of outlines.now) }
    requires rising { AreRising starts.now }
    requires known { AreRight (outlines_of outlines.now) pool.now (get ⟦<Use as PartialEq>⟧.eq known.old) }
    ensures right { IfOk result (λ l. map model.instr_of l.items
        ≡ right_in (judged_from (outlines_of outlines.now) pool.now starts.now 0 (instrs_of instrs.now))) }
    ensures wrong { OnOk result (best_flaw best.new ≡ lower (best_flaw best.old)
        (least (wrong_in (judged_from (outlines_of outlines.now) pool.now starts.now 0 (instrs_of instrs.now))))) }
    ensures known { OnOk result (AreRight (outlines_of outlines.now) pool.now (get ⟦<Use as PartialEq>⟧.eq known.new)) }
{
    let mut code = List::new(alloc);
    let mut place: usize = 0;
    for instr in instrs {
        if place > 0xffff_ffff {
            return Err(Memory);
        }
        let judged = judge_instr(
            alloc, outlines, names, pool, firsts, known, starts, place, instr,
        );
        add(&mut code, best, judged)?;
        place += width(place, instr);
    }
    Ok(code)
}

/// The instructions of a code. What is wrong with them is noted.
pub(crate) fn judge_code(
    alloc: Global,
    outlines: &[Outline<'_>],
    names: &Names,
    pool: &[Const],
    firsts: &[u16],
    known: &mut IndexMap<Use, LinkedArgs>,
    instrs: &[Instr],
    best: &mut Option<LoadFault>,
) -> Result<List<LinkedInstr>, Memory>
    requires names { names.now ≡ names_of (outlines_of outlines.now) }
    requires known { AreRight (outlines_of outlines.now) pool.now (get ⟦<Use as PartialEq>⟧.eq known.old) }
    ensures right { IfOk result (λ l. map model.instr_of l.items
        ≡ right_in (judged_code (outlines_of outlines.now) pool.now (instrs_of instrs.now))) }
    ensures wrong { OnOk result (best_flaw best.new ≡ lower (best_flaw best.old)
        (least (wrong_in (judged_code (outlines_of outlines.now) pool.now (instrs_of instrs.now))))) }
    ensures known { OnOk result (AreRight (outlines_of outlines.now) pool.now (get ⟦<Use as PartialEq>⟧.eq known.new)) }
{
    let starts = starts_of(alloc, instrs)?;
    judge_from(
        alloc,
        outlines,
        names,
        pool,
        firsts,
        known,
        starts.as_slice(),
        instrs,
        best,
    )
}
