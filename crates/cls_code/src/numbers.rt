//! Numbers as bytes, the highest first.
//! Signed numbers stand in two's complement.

ghost use Rattle.std.specs.Prelude.{◌≡◌, ◌++◌, ◌≤◌, length, OnOk};
ghost use Rattle.cls_tree.specs.Layout.{u1, u2, u4, s1, s2, s4};

use byteorder::{BigEndian, ByteOrder};
use mg_text::{Bytes, Memory};

/// Appends a byte.
pub fn put_u1(out: &mut Bytes, number: u8) -> Result<(), Memory>
    ensures { OnOk result (out.new ≡ out.old ++ u1 number) }
{
    out.extend(&[number])
}

/// Appends a number in two bytes.
pub fn put_u2(out: &mut Bytes, number: u16) -> Result<(), Memory>
    ensures { OnOk result (out.new ≡ out.old ++ u2 number) }
{
    let mut bytes = [0u8; 2];
    BigEndian::write_u16(&mut bytes, number);
    out.extend(&bytes)
}

/// Appends a number in four bytes.
pub fn put_u4(out: &mut Bytes, number: u32) -> Result<(), Memory>
    ensures { OnOk result (out.new ≡ out.old ++ u4 number) }
{
    let mut bytes = [0u8; 4];
    BigEndian::write_u32(&mut bytes, number);
    out.extend(&bytes)
}

/// Appends a signed number in one byte.
pub fn put_s1(out: &mut Bytes, number: i8) -> Result<(), Memory>
    ensures { OnOk result (out.new ≡ out.old ++ s1 number) }
{
    put_u1(out, number.cast_unsigned())
}

/// Appends a signed number in two bytes.
pub fn put_s2(out: &mut Bytes, number: i16) -> Result<(), Memory>
    ensures { OnOk result (out.new ≡ out.old ++ s2 number) }
{
    put_u2(out, number.cast_unsigned())
}

/// Appends a signed number in four bytes.
pub fn put_s4(out: &mut Bytes, number: i32) -> Result<(), Memory>
    ensures { OnOk result (out.new ≡ out.old ++ s4 number) }
{
    put_u4(out, number.cast_unsigned())
}
