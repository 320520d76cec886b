//! Sets of names that stand elsewhere, each found at once.

ghost use Rattle.std.specs.Prelude.{◌≡◌, [], ◌∷◌, ◌++◌, List as Seq, ℕ, IfOk, OnOk};
ghost use Rattle.lsp_folder.specs.Noted.{among, noted_in};

use mg_text::Memory;
use std::alloc::Global;
use std::collections::HashSet;

/// No names, with room for as many.
///
/// # Errors
/// `Memory` only.
#[tactic(auto, using(crate::proofs::Sets::none_noted))]
pub fn room_for<'a>(alloc: Global, count: usize) -> Result<HashSet<&'a [u8]>, Memory>
    ensures { IfOk result (λ s. noted_in s ≡ among []) }
{
    Ok(HashSet::with_capacity(alloc, count)?)
}

/// Notes a name beside those that are.
///
/// # Errors
/// `Memory` only.
pub fn note<'a>(names: &mut HashSet<&'a [u8]>, name: &'a [u8]) -> Result<(), Memory>
    ensures { OnOk result ((known : Seq (Seq ℕ)) → noted_in names.old ≡ among known → noted_in names.new ≡ among (known ++ name.now ∷ [])) }
{
    names.insert(name)?;
    Ok(())
}

/// Whether a name is noted.
pub fn is_noted(names: &HashSet<&[u8]>, name: &[u8]) -> bool
    ensures { result ≡ noted_in names.now name.now }
{
    names.contains(name)
}
