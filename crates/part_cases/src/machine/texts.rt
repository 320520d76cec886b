//! Texts of class files in modified UTF-8, as the standard's table has them (JVMS 4.4.7).
//! A class whose pool begins with a text is spelled around its bytes.

ghost use Rattle.std.specs.Prelude.{◌<◌, length};

use crate::machine::classes::{is_written_back, read};
use crate::machine::spelling::joined;
use crate::machine::unanswered::Unanswered;
use cases::Answer;
use cls_tree::{Class, Const};
use std::alloc::{AllocError, Global};

/// Tells the characters of the text that has these bytes, or the fault of its class.
pub fn tell(alloc: Global, answer: &mut Answer, text: &[u8]) -> Result<(), Unanswered> {
    if text.len() > 255 {
        return Err(Unanswered::Form);
    }
    let bytes = spelled(alloc, text)?;
    let bytes = bytes.as_slice();
    if !is_written_back(alloc, bytes) {
        answer.add("written otherwise");
    }
    match read(alloc, bytes) {
        Ok(class) => tell_text(answer, first_text(&class)),
        Err(fault) => answer.tell(&fault),
    }
    Ok(())
}

// The first constant, where it is a text.
fn first_text(class: &Class) -> &str {
    match class.pool.as_slice() {
        [Const::Utf8(text), ..] => text.as_str(),
        _ => "no text",
    }
}

// Tells the characters of a text by their numbers, each in a line.
fn tell_text(answer: &mut Answer, text: &str) {
    for character in text.chars() {
        answer.line();
        answer.hexadecimal(u32::from(character));
    }
}

// The bytes of a class whose pool begins with a text of these bytes. Behind it stand the name A and
// the class of it, which is its own super class.
fn spelled(alloc: Global, text: &[u8]) -> Result<Vec<u8>, AllocError>
    requires { length text.now < 256 }
{
    let len = text.len() as u8;
    let front = [0xca, 0xfe, 0xba, 0xbe, 0, 0, 0, 49, 0, 4, 1, 0, len];
    let rest = [
        1, 0, 1, 65, 7, 0, 2, 0, 0, 0, 3, 0, 3, 0, 0, 0, 0, 0, 0, 0, 0,
    ];
    joined(alloc, &[&front, text, &rest])
}
