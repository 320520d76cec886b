//! The texts of a program's names.

ghost use Rattle.std.specs.Prelude.{◌≡◌};
ghost use Rattle.jv_core.specs.Lookup.{text_at};

use crate::resolved::Core;
use mg_text::Name;

/// The text of a name; empty where the program has no such name.
#[tactic(auto, using(crate::proofs::Found::found))]
pub fn name_text(core: &Core, name: Name) -> &str
    ensures { result.now ≡ text_at core.now name.0 }
{
    let names = core.names();
    if (name.0 as usize) < names.len() {
        return names.text(name);
    }
    ""
}
