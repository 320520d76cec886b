//! Pieces of bytes, each behind its length.

ghost use Rattle.std.specs.Prelude.{◌≡◌, ◌++◌, IfOk, IsErrOf, OnOk};
ghost use Rattle.mg_page.specs.Pieces.{IsPiece, BeginWithNone, piece_bytes};

use crate::asking::AskFault;
use byteorder::{BigEndian, ByteOrder};
use mg_text::{Bytes, Memory};

/// The piece that the bytes begin with, and the rest behind it.
pub(crate) fn first_piece(bytes: &[u8]) -> Result<(&[u8], &[u8]), AskFault>
    ensures ok { IfOk result (λ x. IsPiece bytes.now x.0.now x.1.now) }
    ensures form { IsErrOf result AskFault.Form → BeginWithNone IsPiece bytes.now }
    ensures memory { IsErrOf result AskFault.Memory → ⊥ }
{
    if bytes.len() < 4 {
        return Err(AskFault::Form);
    }
    let count = BigEndian::read_u32(bytes) as usize;
    let rest = &bytes[4..];
    if rest.len() < count {
        return Err(AskFault::Form);
    }
    Ok((&rest[..count], &rest[count..]))
}

/// Appends a piece behind its length. Of one whose length four bytes don't hold the answer is `Memory`.
pub(crate) fn put_piece(out: &mut Bytes, piece: &[u8]) -> Result<(), Memory>
    ensures { OnOk result (out.new ≡ out.old ++ piece_bytes piece.now) }
{
    let Ok(count) = u32::try_from(piece.len()) else {
        return Err(Memory);
    };
    let mut long = [0u8; 4];
    BigEndian::write_u32(&mut long, count);
    out.extend(&long)?;
    out.extend(piece)
}
