//! The types of what messages carry.

ghost use Rattle.std.specs.Prelude.{◌≡◌, ◌↔◌, ◌++◌, ℕ, List, IfOk, IsTrue, Contains, map};
ghost use Rattle.std.specs.List.{flat_map};
ghost use Rattle.std.specs.HashSet.{contains_text};
ghost use Rattle.mg_read.specs.First.{Judged};
ghost use Rattle.scr_tree.specs.Listing.{UnknownType, PayloadCount, declared, carried_by, typed, all_carries};
ghost use Rattle.scr_tree.specs.Written.{carries_of, written_of};
ghost use Rattle.scr_judge.specs.inner.Listed.{alias_of, first_among, is_supported, unsupported, is_declared, undeclared, undeclared_in};
ghost use Rattle.scr_judge.specs.inner.Listed.{undeclared_by, many, many_by};
ghost use Rattle.scr_judge.specs.inner.View.{culprit_of};

use crate::culprit::Culprit;
use crate::declared::{class_beforehand, culprit_at};
use crate::seen::{add_name, no_names};
use crate::truth::{both, either};
use mg_text::{Memory, Place, Text};
use scr_tree::{Carries, Declaration, Payload, Written, WrittenPart};
use std::alloc::Global;
use std::collections::HashSet;

/// The first declaration that isn't supported, or else the first type that a message carries and
/// that isn't declared.
pub fn find_unknown_type<'a>(
    alloc: Global,
    types: &'a [Declaration],
    carries: &'a [Carries],
) -> Result<Option<Culprit<'a>>, Memory>
    ensures { IfOk result (λ r. Judged (UnknownType types.now) (map declared types.now ++ flat_map carried_by (map carries_of carries.now))
        (culprit_of r)) }
{
    match find_unsupported(types) {
        Some(culprit) => Ok(Some(culprit)),
        None => {
            let aliases = declared_names(alloc, types)?;
            Ok(find_undeclared(&aliases, carries))
        }
    }
}

/// The first message with two or more payloads.
pub fn find_payload_count(carries: &[Carries]) -> Option<Culprit<'_>>
    ensures { Judged PayloadCount (map carries_of carries.now) (culprit_of result) }
{
    find_many(carries)
}

/// The first declaration of a file that isn't supported, or else the first type that a message
/// carries and that isn't declared.
pub fn find_unknown_in_file(alloc: Global, written: &Written) -> Result<Option<Culprit<'_>>, Memory>
    ensures { IfOk result (λ r. Judged (UnknownType written.now.types.items) (typed (written_of 0 written.now)) (culprit_of r)) }
{
    let types = written.types.as_slice();
    match find_unsupported(types) {
        Some(culprit) => Ok(Some(culprit)),
        None => {
            let aliases = declared_names(alloc, types)?;
            match find_undeclared(&aliases, written.first.carries.as_slice()) {
                Some(culprit) => Ok(Some(culprit)),
                None => Ok(find_undeclared_among(&aliases, written.others.as_slice())),
            }
        }
    }
}

// The same of protocols behind the first.
#[tactic(auto, using(crate::proofs::Tables::steps))]
fn find_undeclared_among<'a>(
    aliases: &HashSet<String>,
    parts: &'a [WrittenPart],
) -> Option<Culprit<'a>>
    ensures { culprit_of result ≡ first_among (undeclared_by (contains_text aliases.now)) parts.now }
{
    for part in parts {
        if let Some(culprit) = find_undeclared(aliases, part.carries.as_slice()) {
            return Some(culprit);
        }
    }
    None
}

/// The first message of a file with two or more payloads.
pub fn find_payload_in_file(written: &Written) -> Option<Culprit<'_>>
    ensures { Judged PayloadCount (all_carries (written_of 0 written.now)) (culprit_of result) }
{
    match find_many(written.first.carries.as_slice()) {
        Some(culprit) => Some(culprit),
        None => find_many_among(written.others.as_slice()),
    }
}

// The same of protocols behind the first.
#[tactic(auto, using(crate::proofs::Tables::steps))]
fn find_many_among(parts: &[WrittenPart]) -> Option<Culprit<'_>>
    ensures { culprit_of result ≡ first_among many_by parts.now }
{
    for part in parts {
        if let Some(culprit) = find_many(part.carries.as_slice()) {
            return Some(culprit);
        }
    }
    None
}

// The first declaration that isn't of Java or of one of the three classes.
#[tactic(auto, using(crate::proofs::Tables::steps))]
fn find_unsupported(types: &[Declaration]) -> Option<Culprit<'_>>
    ensures { culprit_of result ≡ first_among unsupported types.now }
{
    for declaration in types {
        if !is_supported(declaration) {
            return Some(culprit_at(declaration));
        }
    }
    None
}

fn is_supported(declaration: &Declaration) -> bool
    ensures { result ≡ is_supported declaration.now }
{
    let class = Payload::of_class(declaration.class.as_str()).is_some();
    both(declaration.language.as_str() == "java", class)
}

// The names that are declared.
fn declared_names(alloc: Global, types: &[Declaration]) -> Result<HashSet<String>, Memory>
    ensures { IfOk result (λ s. (q : List ℕ) → IsTrue (contains_text s q) ↔ Contains (map alias_of types.now) q) }
{
    let mut names = no_names(alloc);
    for declaration in types {
        let name = String::from_str(alloc, declaration.alias.as_str())?;
        add_name(&mut names, name)?;
    }
    Ok(names)
}

// The first type that isn't declared.
#[tactic(auto, using(crate::proofs::Tables::steps))]
fn find_undeclared<'a>(aliases: &HashSet<String>, carries: &'a [Carries]) -> Option<Culprit<'a>>
    ensures { culprit_of result ≡ first_among (undeclared_in (contains_text aliases.now)) carries.now }
{
    for message in carries {
        let types = message.types.as_slice();
        if let Some(culprit) = find_undeclared_in(aliases, message.place, types) {
            return Some(culprit);
        }
    }
    None
}

#[tactic(auto, using(crate::proofs::Tables::steps))]
fn find_undeclared_in<'a>(
    aliases: &HashSet<String>,
    place: Place,
    types: &'a [Text],
) -> Option<Culprit<'a>>
    ensures { culprit_of result ≡ first_among (undeclared (contains_text aliases.now) place) types.now }
{
    for name in types {
        let name = name.as_str();
        if !is_declared(aliases, name) {
            return Some(Culprit { place, name });
        }
    }
    None
}

fn is_declared(aliases: &HashSet<String>, name: &str) -> bool
    ensures { result ≡ is_declared (contains_text aliases.now) name.now }
{
    either(class_beforehand(name).is_some(), aliases.contains(name))
}

// The first message with two or more types.
#[tactic(auto, using(crate::proofs::Tables::steps))]
fn find_many(carries: &[Carries]) -> Option<Culprit<'_>>
    ensures { culprit_of result ≡ first_among many carries.now }
{
    for message in carries {
        if message.types.len() >= 2 {
            return Some(Culprit {
                place: message.place,
                name: "",
            });
        }
    }
    None
}
