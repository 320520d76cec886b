//! Names that were seen.

ghost use Rattle.std.specs.Prelude.{◌≡◌, IfOk, OnOk, not, string_bytes};
ghost use Rattle.std.specs.HashSet.{contains_text};
ghost use Rattle.scr_judge.specs.inner.Seen.{none, with_name, noted_in};

use mg_text::Memory;
use std::alloc::Global;
use std::collections::HashSet;

/// No names.
#[tactic(auto, using(crate::proofs::Sets::emptied))]
pub fn no_names(alloc: Global) -> HashSet<String>
    ensures { contains_text result ≡ none }
{
    HashSet::new(alloc)
}

/// Adds a name, and says whether it is new.
#[tactic(auto, using(crate::proofs::Sets::noted))]
pub fn add_name(names: &mut HashSet<String>, name: String) -> Result<bool, Memory>
    ensures new { IfOk result (λ new. new ≡ not (contains_text names.old (string_bytes name))) }
    ensures names { OnOk result (contains_text names.new ≡ with_name (string_bytes name) (contains_text names.old)) }
{
    Ok(names.insert(name)?)
}

/// No names of others, with room for as many.
#[tactic(auto, using(crate::proofs::Sets::none_noted))]
pub fn room_for<'a>(alloc: Global, count: usize) -> Result<HashSet<&'a str>, Memory>
    ensures { IfOk result (λ s. noted_in s ≡ none) }
{
    Ok(HashSet::with_capacity(alloc, count)?)
}

/// Notes a name that stands elsewhere, and says whether it is new.
pub fn note_name<'a>(names: &mut HashSet<&'a str>, name: &'a str) -> Result<bool, Memory>
    ensures new { IfOk result (λ new. new ≡ not (noted_in names.old name.now)) }
    ensures names { OnOk result (noted_in names.new ≡ with_name name.now (noted_in names.old)) }
{
    Ok(names.insert(name)?)
}
