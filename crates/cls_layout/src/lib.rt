//! The fields of a class file: where each lies in its bytes, and which is the first that is wrong.
//! The texts among them are read here too.
#![tactic(auto)]

ghost use Rattle.std.specs.Prelude.{◌<◌, ◌^◌, length, IfOk};
ghost use Rattle.cls_layout.specs.Faults.{Found};

mod format;
mod judging;
mod layout;
mod letters;

use crate::judging::first_of;
use crate::layout::lay_out;
use cls_code::CodeFault;
pub use format::{MAGIC, VERSION};
pub use letters::text_in;
use mg_text::Memory;
use std::alloc::Global;

/// Why bytes are no class file. Fields stand from left to right as far as they can be laid out, and the first that is wrong decides.
/// Offsets are those of fields, counted in bytes from the start of the file.
#[derive(Clone, Copy, Debug)]
pub enum ClassFault {
    /// The first four bytes aren't those of a class file.
    BadMagic { offset: u32 },
    /// The version isn't 49.0.
    Version { offset: u32 },
    /// The bytes end in the field that starts there.
    Short { offset: u32 },
    /// Bytes stand behind the last attribute.
    TrailingBytes { offset: u32 },
    /// The tag of a constant is none.
    BadTag { offset: u32 },
    /// A number that names no constant of the kind that is needed there. A pool's count that is 0.
    BadIndex { offset: u32 },
    /// The bytes of a text aren't modified UTF-8.
    BadText { offset: u32 },
    /// The length of a code's attribute differs from its content, or a method has a second code.
    BadAttribute { offset: u32 },
    /// There are interfaces, or handlers of a code.
    Unsupported { offset: u32 },
    /// A code has a fault; its offset is counted from the start of the file too.
    Code(CodeFault),
    /// Want of memory. Bytes that are over 4 GiB are too many.
    Memory,
}

impl From<Memory> for ClassFault {
    ghost use Rattle.std.specs.Prelude.{◌≡◌};
    ghost use Rattle.cls_layout.specs.declared.ClassFault.TheVariants as E;

    ghost from_gives = { λ _ e. e ≡ E.Memory };

    fn from(_memory: Memory) -> ClassFault {
        ClassFault::Memory
    }
}

/// The fault of the first field that is wrong, of those that stand from left to right as far as they can be laid out, or none.
///
/// # Errors
///
/// `Memory` only.
pub fn first_fault(alloc: Global, bytes: &[u8]) -> Result<Option<ClassFault>, Memory>
    requires { length bytes.now < 2 ^ 32 }
    ensures { IfOk result (λ r. Found bytes.now r) }
{
    let layout = lay_out(alloc, bytes)?;
    first_of(
        alloc,
        bytes,
        layout.places.as_slice(),
        layout.row.as_slice(),
    )
}
