//! The numbers of members by their names, descriptors and kinds, in a table.
//! Of members that agree in these the first counts.

ghost use Rattle.std.specs.Prelude.{◌≡◌, List as Seq, ◌++◌, ◌∷◌, [], map, length, IfOk, OnOk};
ghost use Rattle.std.specs.List.{position};
ghost use Rattle.indexmap.specs.IndexMap.{get};
ghost use Rattle.vm_model.specs.Links.{is_member, Declared as DeclaredOf};
ghost use Rattle.vm_load.specs.Declaring.{declared_of, named_of};
ghost use Rattle.vm_load.specs.Firsts.{HasFirsts, IsKey};

use crate::declared::Declared;
use crate::pool::NamedType;
use indexmap::IndexMap;
use mg_text::Memory;
use std::alloc::Global;

/// What a member is found by.
#[derive(PartialEq, Eq, Hash, Drop)]
pub(crate) struct Key {
    name: String,
    descriptor: String,
    is_static: bool,
}

/// The key of a name, a descriptor and a kind.
fn key_of(alloc: Global, name: &str, descriptor: &str, is_static: bool) -> Result<Key, Memory>
    ensures { IfOk result (λ k. IsKey k name.now descriptor.now is_static) }
{
    let name = String::from_str(alloc, name)?;
    let descriptor = String::from_str(alloc, descriptor)?;
    Ok(Key {
        name,
        descriptor,
        is_static,
    })
}

/// Gives a key a number, where it has none.
fn note(numbers: &mut IndexMap<Key, u32>, key: Key, number: u32) -> Result<(), Memory>
    ensures { (ds : Seq DeclaredOf) → (d : DeclaredOf) → HasFirsts (get ⟦<Key as PartialEq>⟧.eq numbers.old) ds →
        IsKey key d.name d.descriptor d.is_static → number ≡ length ds →
        OnOk result (HasFirsts (get ⟦<Key as PartialEq>⟧.eq numbers.new) (ds ++ d ∷ [])) }
{
    if numbers.get(&key).is_some() {
        return Ok(());
    }
    numbers.insert(key, number)?;
    Ok(())
}

/// Numbers members by their keys, in a table that has none.
pub(crate) fn number_all(
    alloc: Global,
    members: &[Declared<'_>],
    numbers: &mut IndexMap<Key, u32>,
) -> Result<(), Memory>
    requires { HasFirsts (get ⟦<Key as PartialEq>⟧.eq numbers.old) [] }
    ensures { OnOk result (HasFirsts (get ⟦<Key as PartialEq>⟧.eq numbers.new) (map declared_of members.now)) }
{
    for (index, member) in members.iter().enumerate() {
        if index > 0xffff_ffff {
            return Err(Memory);
        }
        let key = key_of(alloc, member.name, member.descriptor, member.is_static)?;
        note(numbers, key, index as u32)?;
    }
    Ok(())
}

/// The number of the first member of a name, a descriptor and a kind.
pub(crate) fn number_in(
    alloc: Global,
    numbers: &IndexMap<Key, u32>,
    wanted: NamedType<'_>,
    is_static: bool,
) -> Result<Option<u32>, Memory>
    ensures { (ds : Seq DeclaredOf) → HasFirsts (get ⟦<Key as PartialEq>⟧.eq numbers.now) ds →
        IfOk result (λ n. n ≡ position (is_member (named_of wanted.entry) is_static) ds) }
{
    let key = key_of(alloc, wanted.name, wanted.descriptor, is_static)?;
    match numbers.get(&key) {
        Some(number) => Ok(Some(*number)),
        None => Ok(None),
    }
}
