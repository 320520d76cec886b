//! What messages carry, gathered from the tokens of a body: of each name with a parenthesis
//! behind it and no `do` in front, the names up to the closing one.

ghost use Rattle.std.specs.Prelude.{◌≡◌, ◌++◌, IfOk, OnOk, map};
ghost use Rattle.scr_tree.specs.Tok.{tok, toks};
ghost use Rattle.scr_tree.specs.Written.{carries_of};
ghost use Rattle.scr_parse.specs.inner.Reading.{names_in, names_up, carried_unless, carries_in};

use crate::front::is_mark;
use mg_text::{List, Memory, Text};
use scr_tree::{Carries, Mark, Token, TokenKind};
use std::alloc::Global;

// Appends the name that a token is, if it is one.
fn add_name(names: &mut List<Text>, token: &Token) -> Result<(), Memory>
    ensures { OnOk result (names.new.items ≡ names.old.items ++ names_in (tok token.now)) }
{
    match &token.kind {
        TokenKind::Name(name) => {
            names.push(name.copy()?)?;
            Ok(())
        }
        TokenKind::Quoted(_) | TokenKind::Mark(_) => Ok(()),
    }
}

/// The names up to the next closing parenthesis.
pub(crate) fn names_up(alloc: Global, tokens: &[Token]) -> Result<List<Text>, Memory>
    ensures { IfOk result (λ l. l.items ≡ names_up (toks tokens.now)) }
{
    let mut names = List::new(alloc);
    let mut rest = tokens;
    'names: while let Some((first, after)) = rest.split_first() {
        if is_mark(rest, Mark::CloseParen) {
            return Ok(names);
        }
        add_name(&mut names, first)?;
        rest = after;
    }
    Ok(names)
}

// Appends what the message carries whose label a token is, if it is one. Behind a `do` it is none.
fn add_carried(
    alloc: Global,
    found: &mut List<Carries>,
    behind_do: bool,
    token: &Token,
    after: &[Token],
) -> Result<(), Memory>
    ensures { OnOk result (map carries_of found.new.items
        ≡ map carries_of found.old.items ++ carried_unless behind_do (tok token.now) (toks after.now)) }
{
    if behind_do {
        return Ok(());
    }
    match &token.kind {
        TokenKind::Name(_) => {
            if !is_mark(after, Mark::OpenParen) {
                return Ok(());
            }
            let types = names_up(alloc, after)?;
            found.push(Carries {
                place: token.place,
                types,
            })?;
            Ok(())
        }
        TokenKind::Quoted(_) | TokenKind::Mark(_) => Ok(()),
    }
}

/// What the messages carry, in the order of the text.
pub fn carries_of(alloc: Global, tokens: &[Token]) -> Result<List<Carries>, Memory>
    ensures { IfOk result (λ l. map carries_of l.items ≡ carries_in (toks tokens.now)) }
{
    let mut found = List::new(alloc);
    let mut behind_do = false;
    let mut rest = tokens;
    'messages: while let Some((first, after)) = rest.split_first() {
        let is_do = is_mark(rest, Mark::Do);
        add_carried(alloc, &mut found, behind_do, first, after)?;
        behind_do = is_do;
        rest = after;
    }
    Ok(found)
}
