//! Which documents show something at the client.

ghost use Rattle.std.specs.Prelude.{◌≡◌, ◌++◌, option_map, option_to_list, IfOk, OnOk};
ghost use Rattle.std.specs.List.{flat_map};
ghost use Rattle.lsp_server.specs.Showing.{others, shown_by, showing};

use lsp_folder::is_part;
use lsp_messages::Outgoing;
use mg_text::{Memory, Text};
use std::alloc::Global;

// Appends the documents outside of the folder of a document.
fn put_others(names: &mut Vec<Text>, document: &str, shown: &[Text]) -> Result<(), Memory>
    ensures { OnOk result (names.new.items ≡ names.old.items ++ others document.now shown.now) }
{
    for name in shown {
        if !is_part(document, name.as_str()) {
            names.push(name.copy()?)?;
        }
    }
    Ok(())
}

// The document that shows something by a message.
fn shown_by(message: &Outgoing) -> Option<&Text>
    ensures { option_to_list (option_map (λ name. name.now) result) ≡ shown_by message.now }
{
    match message {
        Outgoing::Diagnosed {
            document,
            diagnostics,
            ..
        } if !diagnostics.is_empty() => Some(document),
        _ => None,
    }
}

// Appends the documents that show something by these messages.
fn put_shown(names: &mut Vec<Text>, told: &[Outgoing]) -> Result<(), Memory>
    ensures { OnOk result (names.new.items ≡ names.old.items ++ flat_map shown_by told.now) }
{
    for message in told {
        if let Some(name) = shown_by(message) {
            names.push(name.copy()?)?;
        }
    }
    Ok(())
}

/// Which documents show something behind these messages of the folder of a document.
///
/// # Errors
/// `Memory` only.
pub fn showing(
    alloc: Global,
    document: &str,
    shown: &[Text],
    told: &[Outgoing],
) -> Result<Vec<Text>, Memory>
    ensures { IfOk result (λ v. v.items ≡ showing document.now shown.now told.now) }
{
    let mut names = Vec::new(alloc);
    put_others(&mut names, document, shown)?;
    put_shown(&mut names, told)?;
    Ok(names)
}
