//! The names of roles.

ghost use Rattle.std.specs.Prelude.{◌≡◌};
ghost use Rattle.mg_trace.specs.Trace.{name_at};

use mg_text::Text;

/// The name of the role of a number; empty where there is none.
#[tactic(auto, using(crate::proofs::Found::found))]
pub(crate) fn role_name(names: &[Text], role: u32) -> &str
    ensures { result.now ≡ name_at names.now role }
{
    match names.get(role as usize) {
        Some(name) => name.as_str(),
        None => "",
    }
}
