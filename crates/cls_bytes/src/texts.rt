//! Texts in modified UTF-8, as a class file has them (JVMS 4.4.7).
//! The character 0 takes two bytes, and one above U+FFFF two surrogates of three bytes each.

ghost use Rattle.std.specs.Prelude.{◌≡◌, ◌<◌, ◌++◌, IfOk, OnOk};
ghost use Rattle.cls_tree.specs.Modified.{two_bytes, three_bytes, modified_char, modified};

use mg_text::{Bytes, Memory};
use std::alloc::Global;

/// A number below 2^11 in two bytes.
fn put_two(out: &mut Bytes, number: u16) -> Result<(), Memory>
    requires { number < 2048 }
    ensures { OnOk result (out.new ≡ out.old ++ two_bytes number) }
{
    out.extend(&[(0xc0 + number / 64) as u8, (0x80 + number % 64) as u8])
}

/// A number in three bytes.
fn put_three(out: &mut Bytes, number: u16) -> Result<(), Memory>
    ensures { OnOk result (out.new ≡ out.old ++ three_bytes number) }
{
    out.extend(&[
        (0xe0 + number / 4096) as u8,
        (0x80 + number / 64 % 64) as u8,
        (0x80 + number % 64) as u8,
    ])
}

/// The bytes of a character.
fn put_char(out: &mut Bytes, character: char) -> Result<(), Memory>
    ensures { OnOk result (out.new ≡ out.old ++ modified_char character) }
{
    let code = character as u32;
    if code == 0 {
        return put_two(out, 0);
    }
    if code < 0x80 {
        return out.extend(&[code as u8]);
    }
    if code < 0x800 {
        return put_two(out, code as u16);
    }
    if code < 0x1_0000 {
        return put_three(out, code as u16);
    }
    put_three(out, (0xd800 + (code - 0x1_0000) / 1024) as u16)?;
    put_three(out, (0xdc00 + code % 1024) as u16)?;
    Ok(())
}

/// The bytes of a text.
#[tactic(auto, unfolding(cls_tree::specs::Modified::modified))]
pub(crate) fn modified_of(alloc: Global, text: &str) -> Result<Bytes, Memory>
    ensures { IfOk result (λ b. b ≡ modified text.now) }
{
    let mut out = Bytes::new(alloc);
    for character in text.chars() {
        put_char(&mut out, character)?;
    }
    Ok(out)
}
