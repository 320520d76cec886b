//! What is declared.

ghost use Rattle.std.specs.Prelude.{◌≡◌, ◌++◌, ◌∷◌, [], IfOk, OnOk, option_map};
ghost use Rattle.lsp_symbols.specs.Named.{thing};

use lsp_messages::SymbolKind;
use mg_text::{Memory, Place, Text};

/// Something that a document declares.
pub struct Declared {
    /// Its name.
    pub name: Text,
    /// What it is.
    pub kind: SymbolKind,
    /// Where its name stands.
    pub place: Place,
    /// The name of what it is declared in, where it is declared in something.
    pub within: Option<Text>,
}

// One call lets go of it, wherever a function ends.
impl Drop for Declared {
    fn drop(self) {
        let Declared {
            name: _,
            kind: _,
            place: _,
            within: _,
        } = self;
    }
}

// An equal text, where there is one.
pub(crate) fn copied(text: Option<&Text>) -> Result<Option<Text>, Memory>
    ensures { IfOk result (λ t. t ≡ option_map (λ x. x.now) text.entry) }
{
    match text {
        Some(text) => {
            let copy = text.copy()?;
            Ok(Some(copy))
        }
        None => Ok(None),
    }
}

// Appends a thing of this name.
pub(crate) fn put(
    declared: &mut Vec<Declared>,
    name: &Text,
    kind: SymbolKind,
    place: Place,
    within: Option<&Text>,
) -> Result<(), Memory>
    ensures { OnOk result (declared.new.items ≡ declared.old.items
        ++ thing name.now kind place (option_map (λ x. x.now) within.entry) ∷ []) }
{
    let name = name.copy()?;
    let within = copied(within)?;
    declared.push(Declared {
        name,
        kind,
        place,
        within,
    })?;
    Ok(())
}
