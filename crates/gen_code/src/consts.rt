//! The constants of a pool as a class file has them, beside the keys under which they are found.

ghost use Rattle.std.specs.Prelude.{◌≡◌, ◌++◌, map, IfOk, OnOk, OnErr};
ghost use Rattle.gen_pool.specs.Keys.{const_of};
ghost use Rattle.gen_pool.specs.Made.{IsFrontOf};

use cls_tree::Const;
use gen_pool::{Key, Pool as Keys, short};
use mg_text::{Memory, Text};
use std::alloc::Global;

/// The constant that is looked for so.
/// # Errors
/// Want of memory, and a number in it past two bytes, which no class file has.
fn const_of(alloc: Global, key: &Key) -> Result<Const, Memory>
    ensures { IfOk result (λ c. c ≡ const_of key.now) }
{
    let constant = match key {
        Key::Utf8(text) => Const::Utf8(Text::of(alloc, text.as_str())?),
        Key::Integer(number) => Const::Integer(*number),
        Key::Class(name) => Const::Class(short(*name)?),
        Key::Text(text) => Const::Text(short(*text)?),
        Key::Field(class, member) => Const::Field(short(*class)?, short(*member)?),
        Key::Method(class, member) => Const::Method(short(*class)?, short(*member)?),
        Key::NameAndType(name, descriptor) => {
            Const::NameAndType(short(*name)?, short(*descriptor)?)
        }
    };
    Ok(constant)
}

/// Appends the constants of these keys. After a fault some of them are appended.
#[tactic(auto, using(crate::proofs::Fronting::fronting))]
fn push_consts(alloc: Global, keys: &[Key], entries: &mut Vec<Const>) -> Result<(), Memory>
    ensures made { OnOk result (entries.new.items ≡ entries.old.items ++ map const_of keys.now) }
    ensures kept { IsFrontOf entries.old.items entries.new.items }
{
    for key in keys {
        entries.push(const_of(alloc, key)?)?;
    }
    Ok(())
}

/// Appends to the entries the constants that the keys have more. Where memory is short, those keys
/// are dropped.
#[tactic(auto, using(crate::proofs::Fronting::fronting))]
pub(crate) fn keep_up(
    alloc: Global,
    keys: &mut Keys,
    entries: &mut Vec<Const>,
) -> Result<(), Memory>
    requires front { IsFrontOf entries.old.items keys.old }
    ensures keys { OnOk result (keys.new ≡ keys.old) }
    ensures entries { OnOk result (entries.new.items ≡ keys.old) }
    ensures keys_back { OnErr result (keys.new ≡ entries.old.items) }
    ensures entries_back { OnErr result (entries.new.items ≡ entries.old.items) }
{
    let old = entries.len();
    match push_consts(alloc, &keys.entries()[old..], entries) {
        Ok(()) => Ok(()),
        Err(memory) => {
            keys.truncate(old);
            entries.truncate(old);
            Err(memory)
        }
    }
}
