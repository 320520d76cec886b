//! The entries of a state: methods, and `drop: end`, with commas between them.
//! Each function gives what it read, and the tokens behind it.

ghost use Rattle.std.specs.Prelude.{◌≡◌, map};
ghost use Rattle.mg_read.specs.Reader.{all_of};
ghost use Rattle.mg_read.specs.Parsing.{Gives};
ghost use Rattle.mg_read.proofs.Loop.{with_front};
ghost use Rattle.ts_parse.specs.declared.token.Mark.TheVariants as marks;
ghost use Rattle.ts_parse.specs.Tok.{tok, toks};
ghost use Rattle.ts_parse.specs.Written.{wentry_of};
ghost use Rattle.ts_parse.specs.inner.Reading.{behind_at, is_more, is_word, is_drop, after_end, drop_at, entry_at};
ghost use Rattle.ts_parse.specs.inner.Reading.{some_entries_at, entries_at};

use crate::front::{is_mark, mark_of, name_of};
use crate::methods::method_of;
use crate::{Mark, Token, TokenKind, WrittenEntry};
use mg_read::ParseFault;
use mg_text::List;
use std::alloc::Global;

// Whether a token is this word.
fn is_word(token: &Token, text: &str) -> bool
    ensures { result ≡ is_word text.now (tok token.now) }
{
    match &token.kind {
        TokenKind::Name(name) => name.as_str() == text,
        TokenKind::Mark(_) => false,
    }
}

// Whether the word "drop" comes next, with a colon behind it.
fn is_drop(tokens: &[Token]) -> bool
    ensures { result ≡ is_drop (toks tokens.now) }
{
    let Some((first, rest)) = tokens.split_first() else {
        return false;
    };
    if is_mark(rest, Mark::Colon) {
        is_word(first, "drop")
    } else {
        false
    }
}

// "end": the tokens behind it.
#[tactic(auto, unfolding(crate::specs::inner::Reading::after_end))]
fn after_end(tokens: &[Token]) -> Result<&[Token], ParseFault>
    ensures { Gives (λ x. toks x.now) result (after_end (toks tokens.now)) }
{
    let (name, rest) = name_of(tokens)?;
    if name.text.as_str() == "end" {
        return Ok(rest);
    }
    Err(ParseFault::Syntax(Some(name.place)))
}

// "drop" ":" "end"
#[tactic(auto, unfolding(crate::specs::inner::Reading::drop_at))]
fn drop_of(tokens: &[Token]) -> Result<(WrittenEntry, &[Token]), ParseFault>
    ensures { Gives (λ x. (wentry_of x.0, toks x.1.now)) result (drop_at (toks tokens.now)) }
{
    let (word, rest) = name_of(tokens)?;
    let (_, rest) = mark_of(rest, Mark::Colon)?;
    let rest = after_end(rest)?;
    Ok((WrittenEntry::DropEnd(word.place), rest))
}

// "drop" ":" "end"  |  method
#[tactic(auto, unfolding(crate::specs::inner::Reading::entry_at, crate::specs::inner::Reading::offer_at))]
fn entry_of(alloc: Global, tokens: &[Token]) -> Result<(WrittenEntry, &[Token]), ParseFault>
    ensures { Gives (λ x. (wentry_of x.0, toks x.1.now)) result (entry_at (toks tokens.now)) }
{
    if is_drop(tokens) {
        return drop_of(tokens);
    }
    let (method, rest) = method_of(alloc, tokens)?;
    Ok((WrittenEntry::Method(method), rest))
}

// Whether a comma comes next, with no "}" behind it.
fn is_more(tokens: &[Token]) -> bool
    ensures { result ≡ is_more (toks tokens.now) }
{
    let Some((_, rest)) = tokens.split_first() else {
        return false;
    };
    if is_mark(tokens, Mark::Comma) {
        !is_mark(rest, Mark::CloseBrace)
    } else {
        false
    }
}

// "," entry
#[tactic(auto, unfolding(crate::specs::inner::Reading::behind_at))]
fn other_entry_of(alloc: Global, tokens: &[Token]) -> Result<(WrittenEntry, &[Token]), ParseFault>
    ensures { Gives (λ x. (wentry_of x.0, toks x.1.now)) result (behind_at marks.Comma entry_at (toks tokens.now)) }
{
    let (_, rest) = mark_of(tokens, Mark::Comma)?;
    entry_of(alloc, rest)
}

// { "," entry }, behind entries that were read.
fn more_entries_of(
    alloc: Global,
    entries: List<WrittenEntry>,
    tokens: &[Token],
) -> Result<(List<WrittenEntry>, &[Token]), ParseFault>
    ensures { Gives (λ x. (map wentry_of x.0.items, toks x.1.now)) result
        (with_front (map wentry_of entries.items) (all_of is_more (behind_at marks.Comma entry_at) (toks tokens.now))) }
{
    let mut entries = entries;
    let mut rest = tokens;
    'others: while is_more(rest) {
        let (other, after) = other_entry_of(alloc, rest)?;
        entries.push(other)?;
        rest = after;
    }
    Ok((entries, rest))
}

// entry { "," entry } [ "," ]
#[tactic(auto, unfolding(crate::specs::inner::Reading::some_entries_at, crate::specs::inner::Reading::listed_at, crate::specs::inner::Reading::after_comma))]
fn some_entries_of(
    alloc: Global,
    tokens: &[Token],
) -> Result<(List<WrittenEntry>, &[Token]), ParseFault>
    ensures { Gives (λ x. (map wentry_of x.0.items, toks x.1.now)) result (some_entries_at (toks tokens.now)) }
{
    let (first, rest) = entry_of(alloc, tokens)?;
    let mut entries = List::new(alloc);
    entries.push(first)?;
    let (entries, rest) = more_entries_of(alloc, entries, rest)?;
    if !is_mark(rest, Mark::Comma) {
        return Ok((entries, rest));
    }
    let (_, rest) = mark_of(rest, Mark::Comma)?;
    Ok((entries, rest))
}

// [ entry { "," entry } [ "," ] ], up to "}"
#[tactic(auto, unfolding(crate::specs::inner::Reading::entries_at))]
pub(crate) fn entries_of(
    alloc: Global,
    tokens: &[Token],
) -> Result<(List<WrittenEntry>, &[Token]), ParseFault>
    ensures { Gives (λ x. (map wentry_of x.0.items, toks x.1.now)) result (entries_at (toks tokens.now)) }
{
    if is_mark(tokens, Mark::CloseBrace) {
        return Ok((List::new(alloc), tokens));
    }
    some_entries_of(alloc, tokens)
}
