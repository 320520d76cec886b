//! The lines that are said of words, refusals, files and memory.

ghost use Rattle.std.specs.Prelude.{◌≡◌, ◌++◌, IfOk, OnOk, option_map, string_bytes};
ghost use Rattle.std.specs.List.{flat_map};
ghost use Rattle.mg_delivery.specs.Lines.{words_line, name_at, spot_text, named_text, refusal_line, refusal_lines, read_line, write_line, not_offered_line};

use mg_refusal::{Refusal, Spot};
use mg_text::{Memory, Text};
use std::alloc::Global;

/// The line of want of memory, which takes none.
pub const MEMORY: &str = "mungo: memory\n";

// Appends texts, one after another.
fn put(line: &mut String, parts: &[&str]) -> Result<(), Memory>
    ensures { OnOk result (string_bytes line.new ≡ string_bytes line.old ++ flat_map (λ p. p.now) parts.now) }
{
    for part in parts {
        line.push_str(part)?;
    }
    Ok(())
}

// The line of these texts.
fn line_of(alloc: Global, parts: &[&str]) -> Result<Text, Memory>
    ensures { IfOk result (λ t. t ≡ flat_map (λ p. p.now) parts.now) }
{
    let mut line = String::new(alloc);
    put(&mut line, parts)?;
    Ok(Text::from_string(line))
}

/// The words are no command.
pub fn wrong_words(alloc: Global, word: Option<&Text>) -> Result<Text, Memory>
    ensures { IfOk result (λ t. t ≡ words_line (option_map (λ w. w.now) word.entry)) }
{
    match word {
        Some(word) => line_of(alloc, &["mungo: words", " ", word.as_str(), "\n"]),
        None => line_of(alloc, &["mungo: words", "\n"]),
    }
}

/// The files of these names are refused.
pub fn refused(alloc: Global, names: &[Text], refusal: &Refusal) -> Result<Text, Memory>
    ensures { IfOk result (λ t. t ≡ refusal_line names.now refusal.now) }
{
    let mut line = String::new(alloc);
    push_refusal(&mut line, names, refusal)?;
    Ok(Text::from_string(line))
}

/// The files of these names are refused, so: a line for each refusal.
pub fn all_refused(alloc: Global, names: &[Text], refusals: &[Refusal]) -> Result<Text, Memory>
    ensures { IfOk result (λ t. t ≡ refusal_lines names.now refusals.now) }
{
    let mut lines = String::new(alloc);
    for refusal in refusals {
        push_refusal(&mut lines, names, refusal)?;
    }
    Ok(Text::from_string(lines))
}

// Appends the line of a refusal.
fn push_refusal(line: &mut String, names: &[Text], refusal: &Refusal) -> Result<(), Memory>
    ensures { OnOk result (string_bytes line.new ≡ string_bytes line.old ++ refusal_line names.now refusal.now) }
{
    push_spot(line, names, refusal.spot())?;
    put(line, &[": ", refusal.kind()])?;
    push_named(line, refusal.name())?;
    line.push_str("\n")?;
    Ok(())
}

/// Appends where a refusal stands.
///
/// # Errors
/// `Memory` only.
pub fn push_spot(line: &mut String, names: &[Text], spot: Spot) -> Result<(), Memory>
    ensures { OnOk result (string_bytes line.new ≡ string_bytes line.old ++ spot_text names.now spot) }
{
    match spot {
        Spot::Nowhere => put(line, &["mungo"]),
        Spot::Text(place) => {
            let name = name_of(names, place.file);
            let number = place.line;
            let column = place.column;
            write!(line, "{name}:{number}:{column}")?;
            Ok(())
        }
        Spot::Bytes { file, offset } => {
            let name = name_of(names, file);
            write!(line, "{name}:{offset}")?;
            Ok(())
        }
    }
}

// The name of the file of a number.
fn name_of(names: &[Text], file: u32) -> &str
    ensures { result.now ≡ name_at names.now file }
{
    match names.get(file as usize) {
        Some(name) => name.as_str(),
        None => "",
    }
}

// Appends what is named behind a blank, if anything is.
fn push_named(line: &mut String, name: Option<&Text>) -> Result<(), Memory>
    ensures { OnOk result (string_bytes line.new ≡ string_bytes line.old ++ named_text (option_map (λ n. n.now) name.entry)) }
{
    match name {
        Some(name) => put(line, &[" ", name.as_str()]),
        None => Ok(()),
    }
}

/// A file couldn't be read.
pub fn unread(alloc: Global, file: &Text) -> Result<Text, Memory>
    ensures { IfOk result (λ t. t ≡ read_line file.now) }
{
    line_of(alloc, &["mungo: read ", file.as_str(), "\n"])
}

/// A file couldn't be written.
pub fn unwritten(alloc: Global, file: &Text) -> Result<Text, Memory>
    ensures { IfOk result (λ t. t ≡ write_line file.now) }
{
    line_of(alloc, &["mungo: write ", file.as_str(), "\n"])
}

/// A call of this line isn't offered.
pub fn not_offered(alloc: Global, number: u32) -> Result<Text, Memory>
    ensures { IfOk result (λ t. t ≡ not_offered_line number) }
{
    let mut line = String::new(alloc);
    write!(line, "line {number}: not offered")?;
    line.push_str("\n")?;
    Ok(Text::from_string(line))
}
