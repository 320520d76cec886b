//! Faults of class files and flaws of their program, as refusals. Want of memory stays that.

ghost use Rattle.std.specs.Prelude.{◌≡◌};
ghost use Rattle.vm_load.specs.Faults.{flaw_of};
ghost use Rattle.mg_refusal.specs.Refusals.{refusal_in_bytes, refusal_nowhere};
ghost use Rattle.mg_refusal.specs.Order.{IsStopOf};
ghost use Rattle.mg_exec.specs.Files.{code_refusal, class_refusal};
ghost use Rattle.mg_exec.specs.Runs.{flaw_refusal};

use cls_bytes::ClassFault;
use cls_code::CodeFault;
use mg_refusal::{Refusal, Stop};
use mg_text::Text;
use vm_load::LoadFault;

/// The refusal of the file of this number by a fault of its bytes.
pub(crate) fn stop_of_class(file: u32, fault: ClassFault) -> Stop
    ensures { IsStopOf (λ wanted r. r ≡ wanted) (class_refusal file fault) result }
{
    match fault {
        ClassFault::BadMagic { offset } => at("BadMagic", file, offset),
        ClassFault::Version { offset } => at("Version", file, offset),
        ClassFault::Short { offset } => at("Short", file, offset),
        ClassFault::TrailingBytes { offset } => at("TrailingBytes", file, offset),
        ClassFault::BadTag { offset } => at("BadTag", file, offset),
        ClassFault::BadIndex { offset } => at("BadIndex", file, offset),
        ClassFault::BadText { offset } => at("BadText", file, offset),
        ClassFault::BadAttribute { offset } => at("BadAttribute", file, offset),
        ClassFault::Unsupported { offset } => at("Unsupported", file, offset),
        ClassFault::Code(fault) => stop_of_code(file, fault),
        ClassFault::Memory => Stop::Memory,
    }
}

// The same of a fault of a code.
fn stop_of_code(file: u32, fault: CodeFault) -> Stop
    ensures { IsStopOf (λ wanted r. r ≡ wanted) (code_refusal file fault) result }
{
    match fault {
        CodeFault::CodeTooLong { offset } => at("CodeTooLong", file, offset),
        CodeFault::UnknownOpcode { offset } => at("UnknownOpcode", file, offset),
        CodeFault::Short { offset } => at("Short", file, offset),
        CodeFault::BadSwitch { offset } => at("BadSwitch", file, offset),
        CodeFault::JumpOutside { offset } => at("JumpOutside", file, offset),
        CodeFault::Memory => Stop::Memory,
    }
}

/// The refusal of class files by a flaw of the program that they link to.
pub(crate) fn stop_of_load(fault: LoadFault) -> Stop
    ensures { IsStopOf (λ flaw r. r ≡ flaw_refusal flaw) (flaw_of fault) result }
{
    match fault {
        LoadFault::DuplicateClass { name } => nowhere("DuplicateClass", name),
        LoadFault::UnknownClass { name } => nowhere("UnknownClass", name),
        LoadFault::UnknownMember { name } => nowhere("UnknownMember", name),
        LoadFault::BadDescriptor { name } => nowhere("BadDescriptor", name),
        LoadFault::NoCode { name } => nowhere("NoCode", name),
        LoadFault::Memory => Stop::Memory,
    }
}

fn at(kind: &'static str, file: u32, offset: u32) -> Stop
    ensures { result ≡ Stop.Refused (refusal_in_bytes kind.now file offset) }
{
    Stop::Refused(Refusal::in_bytes(kind, file, offset))
}

fn nowhere(kind: &'static str, name: Text) -> Stop
    ensures { result ≡ Stop.Refused (refusal_nowhere kind.now name) }
{
    Stop::Refused(Refusal::nowhere(kind, name))
}
