//! Whether an instruction has the arguments of its opcode (JVMS chapter 6).
//! Its jumps lead to instructions of its code.

ghost use Rattle.std.specs.Prelude.{◌≡◌, is_some, nat_lt};
ghost use Rattle.std.specs.List.{list_all};
ghost use Rattle.vm_model.specs.View.{args_of};
ghost use Rattle.vm_model.specs.Actions.{action};
ghost use Rattle.vm_model.specs.Linked.{fits_code, leads_within};

use vm_actions::action_of;
use vm_model::{LinkedArgs, LinkedInstr};

/// Whether there is an instruction of this number among so many.
fn is_number(count: usize, target: u32) -> bool
    ensures { result ≡ nat_lt target count }
{
    (target as usize) < count
}

/// Whether there are instructions of these numbers among so many.
fn are_numbers(count: usize, targets: &[u32]) -> bool
    ensures { result ≡ list_all (λ target. nat_lt target count) targets.now }
{
    for target in targets {
        if !is_number(count, *target) {
            return false;
        }
    }
    true
}

/// Whether jumps lead to instructions of a code of so many.
fn leads_within(count: usize, args: &LinkedArgs) -> bool
    ensures { result ≡ leads_within count (args_of args.now) }
{
    match args {
        LinkedArgs::Jump(target) => is_number(count, *target),
        LinkedArgs::Table {
            default,
            targets,
            ..
        } => is_number(count, *default) && are_numbers(count, targets.as_slice()),
        _ => true,
    }
}

/// Whether an instruction has the arguments of its opcode.
fn is_form(instr: &LinkedInstr) -> bool
    ensures { result ≡ is_some (action instr.now.op (args_of instr.now.args)) }
{
    match action_of(instr) {
        Some(_action) => true,
        None => false,
    }
}

/// Whether an instruction has the arguments of its opcode, in a code of so many instructions.
pub(crate) fn fits_code(count: usize, instr: &LinkedInstr) -> bool
    ensures { result ≡ fits_code count instr.now.op (args_of instr.now.args) }
{
    is_form(instr) && leads_within(count, &instr.args)
}
