//! Methods of one name with different signatures.
//! A table has the signature of the first method of each name; every method is held against it.

ghost use Rattle.std.specs.Prelude.{◌≡◌, [], ◌&&◌, IfOk, OnOk, map, option_map};
ghost use Rattle.ts_read.specs.inner.Finding.{blamed_of, first_some, at_method};
ghost use Rattle.ts_read.specs.inner.Signing.{type_eq, types_eq, sig_of, sig_in, with_method, with_entry, with_entries, with_states};
ghost use Rattle.ts_read.specs.inner.Signing.{is_like, other_method, other_in_state};

use crate::blame::{Blamed, blame};
use mg_text::{List, Memory, Names};
use std::alloc::Global;
use ts_parse::{WrittenEntry, WrittenMethod, WrittenState};
use ts_tree::TypeName;

/// The result and the parameters of a method.
#[derive(Drop)]
pub(crate) struct Signature {
    pub result: TypeName,
    pub params: List<TypeName>,
}

fn same_type(left: &TypeName, right: &TypeName) -> bool
    ensures { result ≡ type_eq left.now right.now }
{
    match left {
        TypeName::Void => matches!(right, TypeName::Void),
        TypeName::Int => matches!(right, TypeName::Int),
        TypeName::Boolean => matches!(right, TypeName::Boolean),
        TypeName::Text => matches!(right, TypeName::Text),
        TypeName::Named(name) => match right {
            TypeName::Named(other) => name.as_str() == other.as_str(),
            _ => false,
        },
    }
}

fn same_types(left: &[TypeName], right: &[TypeName]) -> bool
    ensures { result ≡ types_eq left.now right.now }
{
    let mut lefts = left;
    let mut rights = right;
    'types: while let Some((one, more)) = lefts.split_first() {
        let Some((other, others)) = rights.split_first() else {
            return false;
        };
        if !same_type(one, other) {
            return false;
        }
        lefts = more;
        rights = others;
    }
    rights.is_empty()
}

fn both(left: bool, right: bool) -> bool
    ensures { result ≡ (left && right) }
{
    left && right
}

pub(crate) fn copy_types(alloc: Global, types: &[TypeName]) -> Result<List<TypeName>, Memory>
    ensures { IfOk result (λ l. l.items ≡ types.now) }
{
    let mut copies = List::new(alloc);
    for item in types {
        let copy = item.copy()?;
        copies.push(copy)?;
    }
    Ok(copies)
}

fn signature_of(alloc: Global, method: &WrittenMethod) -> Result<Signature, Memory>
    ensures { IfOk result (λ s. sig_of s ≡ sig_in method.now) }
{
    let type_name = method.result.copy()?;
    let params = copy_types(alloc, method.params.as_slice())?;
    Ok(Signature {
        result: type_name,
        params,
    })
}

// Notes the signature of a method whose name is new.
fn note_method(
    alloc: Global,
    names: &mut Names,
    signatures: &mut List<Signature>,
    method: &WrittenMethod,
) -> Result<(), Memory>
    ensures { OnOk result (record { names = names.new; sigs = map sig_of signatures.new.items }
        ≡ with_method (record { names = names.old; sigs = map sig_of signatures.old.items }) method.now) }
{
    let text = method.name.text.as_str();
    if names.find(text).is_some() {
        return Ok(());
    }
    if names.len() >= u32::MAX as usize {
        return Err(Memory);
    }
    let signature = signature_of(alloc, method)?;
    signatures.push(signature)?;
    names.add(text)?;
    Ok(())
}

// Notes the signature of an entry that is a method whose name is new.
fn note_entry(
    alloc: Global,
    names: &mut Names,
    signatures: &mut List<Signature>,
    entry: &WrittenEntry,
) -> Result<(), Memory>
    ensures { OnOk result (record { names = names.new; sigs = map sig_of signatures.new.items }
        ≡ with_entry (record { names = names.old; sigs = map sig_of signatures.old.items }) entry.now) }
{
    match entry {
        WrittenEntry::Method(method) => note_method(alloc, names, signatures, method),
        WrittenEntry::DropEnd(_) => Ok(()),
    }
}

fn note_entries(
    alloc: Global,
    names: &mut Names,
    signatures: &mut List<Signature>,
    entries: &[WrittenEntry],
) -> Result<(), Memory>
    ensures { OnOk result (record { names = names.new; sigs = map sig_of signatures.new.items }
        ≡ with_entries (record { names = names.old; sigs = map sig_of signatures.old.items }) entries.now) }
{
    for item in entries {
        note_entry(alloc, names, signatures, item)?;
    }
    Ok(())
}

fn note_states(
    alloc: Global,
    names: &mut Names,
    signatures: &mut List<Signature>,
    states: &[WrittenState],
) -> Result<(), Memory>
    ensures { OnOk result (record { names = names.new; sigs = map sig_of signatures.new.items }
        ≡ with_states (record { names = names.old; sigs = map sig_of signatures.old.items }) states.now) }
{
    for item in states {
        note_entries(alloc, names, signatures, item.entries.as_slice())?;
    }
    Ok(())
}

// The method, unless the first of its name has the same signature.
fn unless_like(
    names: &Names,
    signatures: &[Signature],
    method: &WrittenMethod,
) -> Result<Option<Blamed>, Memory>
    ensures { IfOk result (λ o. option_map blamed_of o ≡ other_method (record { names = names.now; sigs = map sig_of signatures.now })
        method.now) }
{
    let Some(name) = names.find(method.name.text.as_str()) else {
        return Ok(None);
    };
    let Some(first) = signatures.get(name.0 as usize) else {
        return Ok(None);
    };
    let alike = both(
        same_type(&first.result, &method.result),
        same_types(first.params.as_slice(), method.params.as_slice()),
    );
    if alike {
        return Ok(None);
    }
    blame(&method.name)
}

fn other_at(
    names: &Names,
    signatures: &[Signature],
    entry: &WrittenEntry,
) -> Result<Option<Blamed>, Memory>
    ensures { IfOk result (λ o. option_map blamed_of o
        ≡ at_method (other_method (record { names = names.now; sigs = map sig_of signatures.now })) entry.now) }
{
    match entry {
        WrittenEntry::Method(method) => unless_like(names, signatures, method),
        WrittenEntry::DropEnd(_) => Ok(None),
    }
}

fn other_in_entries(
    names: &Names,
    signatures: &[Signature],
    entries: &[WrittenEntry],
) -> Result<Option<Blamed>, Memory>
    ensures { IfOk result (λ o. option_map blamed_of o
        ≡ first_some (map (at_method (other_method (record { names = names.now; sigs = map sig_of signatures.now }))) entries.now)) }
{
    for item in entries {
        let found = other_at(names, signatures, item)?;
        if found.is_some() {
            return Ok(found);
        }
    }
    Ok(None)
}

fn other_in_states(
    names: &Names,
    signatures: &[Signature],
    states: &[WrittenState],
) -> Result<Option<Blamed>, Memory>
    ensures { IfOk result (λ o. option_map blamed_of o
        ≡ first_some (map (other_in_state (record { names = names.now; sigs = map sig_of signatures.now })) states.now)) }
{
    for item in states {
        let found = other_in_entries(names, signatures, item.entries.as_slice())?;
        if found.is_some() {
            return Ok(found);
        }
    }
    Ok(None)
}

// The first method whose signature is another than that of the first of its name.
pub(crate) fn other_signature(
    alloc: Global,
    states: &[WrittenState],
) -> Result<Option<Blamed>, Memory>
    ensures { IfOk result (λ o. option_map blamed_of o
        ≡ first_some (map (other_in_state (with_states (record { names = []; sigs = [] }) states.now)) states.now)) }
{
    let mut names = Names::new(alloc);
    let mut signatures = List::new(alloc);
    note_states(alloc, &mut names, &mut signatures, states)?;
    other_in_states(&names, signatures.as_slice(), states)
}
