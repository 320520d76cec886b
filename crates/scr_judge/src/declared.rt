//! What a file declares and lists, each name once.

ghost use Rattle.std.specs.Prelude.{◌≡◌, ◌↔◌, ◌++◌, IfOk, IsTrue, map, option_map};
ghost use Rattle.mg_read.specs.First.{Judged, with_earlier};
ghost use Rattle.mg_read.specs.Culprit.{culprit};
ghost use Rattle.scr_tree.specs.Listing.{DuplicateName, declares, lists, entries};
ghost use Rattle.scr_tree.specs.Written.{class_beforehand, written_of};
ghost use Rattle.scr_judge.specs.inner.Listed.{DeclaredTwice, ListedTwice, IsOtherwise};
ghost use Rattle.scr_judge.specs.inner.Own.{FirstIn};
ghost use Rattle.scr_judge.specs.inner.View.{culprit_of, told};

use crate::culprit::Culprit;
use crate::roles::find_listed_twice;
use mg_text::Memory;
use scr_tree::{Declaration, Payload, Role, Written, WrittenPart};
use std::alloc::Global;
use std::collections::HashMap;

/// The first type name that is declared with a second class, or else the first role that is listed
/// twice.
pub fn find_duplicate_name<'a>(
    alloc: Global,
    types: &'a [Declaration],
    roles: &'a [Role],
) -> Result<Option<Culprit<'a>>, Memory>
    ensures { IfOk result (λ r. Judged DuplicateName (with_earlier (map declares types.now ++ map lists roles.now)) (culprit_of r)) }
{
    match find_declared_twice(alloc, types)? {
        Some(culprit) => Ok(Some(culprit)),
        None => find_listed_twice(alloc, roles),
    }
}

/// The same of a whole file, where each protocol lists its own roles.
pub fn find_duplicate_in_file(
    alloc: Global,
    written: &Written,
) -> Result<Option<Culprit<'_>>, Memory>
    ensures { IfOk result (λ r. Judged DuplicateName (entries (written_of 0 written.now)) (culprit_of r)) }
{
    let types = written.types.as_slice();
    match find_duplicate_name(alloc, types, written.first.roles.as_slice())? {
        Some(culprit) => Ok(Some(culprit)),
        None => find_twice_in(alloc, written.others.as_slice()),
    }
}

// The first role that a protocol lists twice.
fn find_twice_in(alloc: Global, parts: &[WrittenPart]) -> Result<Option<Culprit<'_>>, Memory>
    ensures { IfOk result (λ r. FirstIn (λ p. Judged ListedTwice (with_earlier p.roles.items)) parts.now (culprit_of r)) }
{
    for part in parts {
        if let Some(culprit) = find_listed_twice(alloc, part.roles.as_slice())? {
            return Ok(Some(culprit));
        }
    }
    Ok(None)
}

// The first declaration that gives a name another class than one before it.
fn find_declared_twice(alloc: Global, types: &[Declaration]) -> Result<Option<Culprit<'_>>, Memory>
    ensures { IfOk result (λ r. Judged DeclaredTwice (with_earlier types.now) (culprit_of r)) }
{
    // Of each name the index of the first declaration that has it.
    let mut firsts: HashMap<String, usize> = HashMap::new(alloc);
    for (i, declaration) in types.iter().enumerate() {
        if is_otherwise(declaration) {
            return Ok(Some(culprit_at(declaration)));
        }
        match firsts.get(declaration.alias.as_str()) {
            Some(first) => {
                if types[*first].class != declaration.class {
                    return Ok(Some(culprit_at(declaration)));
                }
            }
            None => {
                let key = String::from_str(alloc, declaration.alias.as_str())?;
                firsts.insert(key, i)?;
            }
        }
    }
    Ok(None)
}

/// A declaration that is at fault.
pub fn culprit_at(declaration: &Declaration) -> Culprit<'_>
    ensures { told result ≡ culprit declaration.now.place declaration.now.alias }
{
    Culprit {
        place: declaration.place,
        name: declaration.alias.as_str(),
    }
}

// Whether a name is declared beforehand, with another class.
fn is_otherwise(declaration: &Declaration) -> bool
    ensures { IsTrue result ↔ IsOtherwise declaration.now }
{
    match class_beforehand(declaration.alias.as_str()) {
        None => false,
        Some(class) => declaration.class.as_str() != class,
    }
}

/// The class of a name that is declared beforehand.
pub fn class_beforehand(alias: &str) -> Option<&'static str>
    ensures { option_map (λ c. c.now) result ≡ class_beforehand alias.now }
{
    match Payload::of_word(alias) {
        Some(kind) => Some(kind.class()),
        None => None,
    }
}
