//! Reads one token: a sign, a word or a name, and tells which words are names.

ghost use Rattle.std.specs.Prelude.{◌≡◌, IfSome, is_some, option_map};
ghost use Rattle.jv_tree.specs.Tokens.{is_name};
ghost use Rattle.jv_tree.specs.Expressions.{starts_number};
ghost use Rattle.jv_parse.specs.inner.Gives.{Gives};
ghost use Rattle.jv_parse.specs.inner.Rests.{rest_of};
ghost use Rattle.jv_grammar.specs.Base.{sign_at, is_sign, word_at, is_word, name_at, is_named};
ghost use Rattle.jv_grammar.specs.Files.{behind};

use crate::halt::Halt;
use jv_tree::{Sign, Token, TokenKind};
use mg_text::{Place, Text, is_java_word};

// Whether a word is a name.
pub(crate) fn is_name(word: &str) -> bool
    ensures { result ≡ is_name word.now }
{
    !is_java_word(word)
}

// The place of this sign and the tokens after it, where it comes next.
pub(crate) fn past_sign(tokens: &[Token], sign: Sign) -> Option<(Place, &[Token])>
    ensures it { option_map (λ x. (x.0, x.1.now)) result ≡ sign_at sign tokens.now }
    ensures comes { is_some result ≡ is_sign sign tokens.now }
    ensures rest { IfSome result (λ x. x.1.now ≡ behind tokens.now) }
{
    let (first, rest) = tokens.split_first()?;
    match &first.kind {
        TokenKind::Sign(found) => {
            if *found == sign {
                Some((first.place, rest))
            } else {
                None
            }
        }
        TokenKind::Word(_) | TokenKind::Number(_) | TokenKind::Text(_) => None,
    }
}

// The place of this sign, and the tokens after it.
pub(crate) fn sign_of(tokens: &[Token], sign: Sign) -> Result<(Place, &[Token]), Halt>
    ensures { Gives (λ x. (x.0, x.1.now)) result (sign_at sign tokens.now) }
{
    match past_sign(tokens, sign) {
        Some(found) => Ok(found),
        None => Err(Halt::Syntax { left: tokens.len() }),
    }
}

// Whether this sign comes next.
pub(crate) fn is_sign(tokens: &[Token], sign: Sign) -> bool
    ensures { result ≡ is_sign sign tokens.now }
{
    past_sign(tokens, sign).is_some()
}

// The place of this word and the tokens after it, where it comes next.
pub(crate) fn past_word<'a>(tokens: &'a [Token], word: &str) -> Option<(Place, &'a [Token])>
    ensures it { option_map (λ x. (x.0, x.1.now)) result ≡ word_at word.now tokens.now }
    ensures comes { is_some result ≡ is_word word.now tokens.now }
{
    let (first, rest) = tokens.split_first()?;
    match &first.kind {
        TokenKind::Word(found) => {
            if found.as_str() == word {
                Some((first.place, rest))
            } else {
                None
            }
        }
        TokenKind::Number(_) | TokenKind::Text(_) | TokenKind::Sign(_) => None,
    }
}

// The place of this word, and the tokens after it.
pub(crate) fn word_of<'a>(tokens: &'a [Token], word: &str) -> Result<(Place, &'a [Token]), Halt>
    ensures { Gives (λ x. (x.0, x.1.now)) result (word_at word.now tokens.now) }
{
    match past_word(tokens, word) {
        Some(found) => Ok(found),
        None => Err(Halt::Syntax { left: tokens.len() }),
    }
}

// Whether this word comes next.
pub(crate) fn is_word(tokens: &[Token], word: &str) -> bool
    ensures { result ≡ is_word word.now tokens.now }
{
    past_word(tokens, word).is_some()
}

// The place of a name, the name and the tokens after it, where one comes next.
pub(crate) fn past_name(tokens: &[Token]) -> Option<(Place, &Text, &[Token])>
    ensures it { option_map (λ x. ((x.0, x.1.now), x.2.now)) result ≡ name_at tokens.now }
    ensures comes { is_some result ≡ is_named tokens.now }
{
    let (first, rest) = tokens.split_first()?;
    match &first.kind {
        TokenKind::Word(word) => {
            if is_name(word.as_str()) {
                Some((first.place, word, rest))
            } else {
                None
            }
        }
        TokenKind::Number(_) | TokenKind::Text(_) | TokenKind::Sign(_) => None,
    }
}

// A name and its place, and the tokens after it.
pub(crate) fn name_of(tokens: &[Token]) -> Result<(Place, Text, &[Token]), Halt>
    ensures { Gives (λ x. ((x.0, x.1), x.2.now)) result (name_at tokens.now) }
{
    match past_name(tokens) {
        Some((place, name, rest)) => Ok((place, name.copy()?, rest)),
        None => Err(Halt::Syntax { left: tokens.len() }),
    }
}

// The tokens behind a name that is not kept.
pub(crate) fn after_name(tokens: &[Token]) -> Result<&[Token], Halt>
    ensures { Gives (λ x. x.now) result (rest_of (name_at tokens.now)) }
{
    match past_name(tokens) {
        Some((_, _, rest)) => Ok(rest),
        None => Err(Halt::Syntax { left: tokens.len() }),
    }
}

// Whether a name comes next.
pub(crate) fn is_named(tokens: &[Token]) -> bool
    ensures { result ≡ is_named tokens.now }
{
    past_name(tokens).is_some()
}

// Whether a number comes next.
pub(crate) fn starts_number(tokens: &[Token]) -> bool
    ensures { result ≡ starts_number tokens.now }
{
    let Some((first, _)) = tokens.split_first() else {
        return false;
    };
    match &first.kind {
        TokenKind::Number(_) => true,
        TokenKind::Word(_) | TokenKind::Text(_) | TokenKind::Sign(_) => false,
    }
}
