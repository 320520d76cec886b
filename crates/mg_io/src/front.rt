//! Reads the front of what a reader gives.

ghost use Rattle.std.specs.Prelude.{◌≡◌, ◌≤◌, ◌<◌, ◌++◌, ℕ, List, length, take, IfOk, IfSome};
ghost use Rattle.std.specs.Io.KnownBytes.{Consumes, IsAtEnd};
ghost use Rattle.mg_io.specs.Fakes.{counted_if_failed};

use crate::IoFault;
use crate::refusal::Refusals;
use mg_text::Bytes;
use std::alloc::Global;
use std::io::Read;

/// How many bytes are asked for at a time.
const CHUNK: usize = 0x1_0000;

/// The first `limit` bytes that a reader gives, or all of them where there are fewer.
/// `Failed` exactly where it refuses a read.
pub fn read_front<R: Read>(
    alloc: Global,
    reader: &mut R,
    refusals: &mut Refusals,
    limit: usize,
) -> Result<Bytes, IoFault>
    ensures limit { IfOk result (λ bytes. length bytes ≤ limit) }
    ensures content { IfOk result
        (λ bytes. IfSome (R.remaining reader.old) (λ all. bytes ≡ take limit all)) }
    ensures counted { refusals.new ≡ counted_if_failed result refusals.old }
{
    let mut buffer = vec![in alloc; 0u8; limit.min(CHUNK)]?;
    let mut bytes = Bytes::new(alloc);
    while bytes.len() < limit {
        let room = buffer.len().min(limit - bytes.len());
        let count = read_piece(reader, refusals, &mut buffer[..room], &mut bytes)?;
        if count == 0 {
            break;
        }
    }
    Ok(bytes)
}

/// Appends what one read into the buffer gives, and answers how many bytes these are.
fn read_piece<R: Read>(
    reader: &mut R,
    refusals: &mut Refusals,
    buffer: &mut [u8],
    bytes: &mut Bytes,
) -> Result<usize, IoFault>
    ensures bound { IfOk result (λ count. count ≤ length buffer.old) }
    ensures piece { IfOk result
        (λ count. (piece : List ℕ) × (length piece ≡ count) × (bytes.new ≡ bytes.old ++ piece)
        × Consumes (R.remaining reader.old) (R.remaining reader.new) piece) }
    ensures end { IfOk result
        (λ count. count ≡ 0 → 0 < length buffer.old → IsAtEnd (R.remaining reader.new)) }
    ensures counted { refusals.new ≡ counted_if_failed result refusals.old }
{
    let count = refusals.noted(reader.read(buffer))?;
    bytes.extend(&buffer[..count])?;
    Ok(count)
}
