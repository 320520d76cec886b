//! What each `do` of a body is given, gathered from the tokens: the names behind its name, up to
//! the closing parenthesis.

ghost use Rattle.std.specs.Prelude.{◌≡◌, ◌++◌, IfOk, OnOk, map};
ghost use Rattle.scr_tree.specs.Tok.{tok, toks};
ghost use Rattle.scr_tree.specs.Written.{arguments_of};
ghost use Rattle.scr_parse.specs.inner.Reading.{given_in, given_by, arguments_in};

use crate::carries::names_up;
use mg_text::{List, Memory, Place};
use scr_tree::{Arguments, Mark, Token, TokenKind};
use std::alloc::Global;

// Appends what a `do` at a place is given whose name a token is, if it is one.
fn add_given(
    alloc: Global,
    found: &mut List<Arguments>,
    place: Place,
    token: &Token,
    after: &[Token],
) -> Result<(), Memory>
    ensures { OnOk result (map arguments_of found.new.items
        ≡ map arguments_of found.old.items ++ given_in place (tok token.now) (toks after.now)) }
{
    match &token.kind {
        TokenKind::Name(name) => {
            let roles = names_up(alloc, after)?;
            let name = name.copy()?;
            found.push(Arguments { place, name, roles })?;
            Ok(())
        }
        TokenKind::Quoted(_) | TokenKind::Mark(_) => Ok(()),
    }
}

// Appends what the `do` is given that a token is, if it is one.
fn add_arguments(
    alloc: Global,
    found: &mut List<Arguments>,
    token: &Token,
    after: &[Token],
) -> Result<(), Memory>
    ensures { OnOk result (map arguments_of found.new.items
        ≡ map arguments_of found.old.items ++ given_by (tok token.now) (toks after.now)) }
{
    match &token.kind {
        TokenKind::Mark(mark) => {
            if *mark != Mark::Do {
                return Ok(());
            }
            match after.split_first() {
                Some((name, behind)) => add_given(alloc, found, token.place, name, behind),
                None => Ok(()),
            }
        }
        TokenKind::Name(_) | TokenKind::Quoted(_) => Ok(()),
    }
}

/// What each `do` is given, in the order of the text.
pub(crate) fn arguments_of(alloc: Global, tokens: &[Token]) -> Result<List<Arguments>, Memory>
    ensures { IfOk result (λ l. map arguments_of l.items ≡ arguments_in (toks tokens.now)) }
{
    let mut found = List::new(alloc);
    let mut rest = tokens;
    'tokens: while let Some((first, after)) = rest.split_first() {
        add_arguments(alloc, &mut found, first, after)?;
        rest = after;
    }
    Ok(found)
}
