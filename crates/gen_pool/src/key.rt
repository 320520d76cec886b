//! Constants as they are looked for.

ghost use Rattle.std.specs.Prelude.{◌≡◌, IfOk};
ghost use Rattle.gen_pool.specs.Keys.{const_of};

use cls_tree::Const;
use mg_text::{Memory, Text};
use std::alloc::Global;

/// A constant as it is looked for in a pool. Numbers are those of other constants, which count
/// from 1; they are as large as the pool becomes, also where a class file can't hold them.
#[derive(Debug, PartialEq, Eq, Hash, Drop)]
pub enum Key {
    /// A text, as it stands in the file.
    Utf8(String),
    /// A number that code may push.
    Integer(i32),
    /// A class, by its name.
    Class(usize),
    /// A text that code may push.
    Text(usize),
    /// A field: its class, and its name and type.
    Field(usize, usize),
    /// A method: its class, and its name and type.
    Method(usize, usize),
    /// A name and a descriptor.
    NameAndType(usize, usize),
}

/// How a constant is looked for.
pub(crate) fn key_of(alloc: Global, entry: Const) -> Result<Key, Memory>
    ensures { IfOk result (λ k. const_of k ≡ entry) }
{
    let key = match entry {
        Const::Utf8(text) => Key::Utf8(String::from_str(alloc, text.as_str())?),
        Const::Integer(number) => Key::Integer(number),
        Const::Class(name) => Key::Class(name as usize),
        Const::Text(text) => Key::Text(text as usize),
        Const::Field(class, member) => Key::Field(class as usize, member as usize),
        Const::Method(class, member) => Key::Method(class as usize, member as usize),
        Const::NameAndType(name, descriptor) => {
            Key::NameAndType(name as usize, descriptor as usize)
        }
    };
    Ok(key)
}

/// A number of two bytes.
/// # Errors
/// A number past two bytes.
pub fn short(number: usize) -> Result<u16, Memory>
    ensures { IfOk result (λ n. n ≡ number) }
{
    if number < 65536 {
        Ok(number as u16)
    } else {
        Err(Memory)
    }
}

/// The constant that is looked for so.
/// # Errors
/// A number in it past two bytes, which no class file has.
pub(crate) fn const_of(key: Key) -> Result<Const, Memory>
    ensures { IfOk result (λ c. c ≡ const_of key) }
{
    let constant = match key {
        Key::Utf8(text) => Const::Utf8(Text::from_string(text)),
        Key::Integer(number) => Const::Integer(number),
        Key::Class(name) => Const::Class(short(name)?),
        Key::Text(text) => Const::Text(short(text)?),
        Key::Field(class, member) => Const::Field(short(class)?, short(member)?),
        Key::Method(class, member) => Const::Method(short(class)?, short(member)?),
        Key::NameAndType(name, descriptor) => {
            Const::NameAndType(short(name)?, short(descriptor)?)
        }
    };
    Ok(constant)
}
