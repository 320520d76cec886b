//! Reads a file: its package, its imports and its declarations.
//! Packages and imports are not kept.

ghost use Rattle.std.specs.Prelude.{◌≡◌, Some, IfSome, is_some, map, codes};
ghost use Rattle.jv_tree.specs.View.{decl_of, file_of};
ghost use Rattle.jv_parse.specs.inner.Gives.{Gives};
ghost use Rattle.jv_parse.specs.inner.Rests.{rest_of, imports_at, decls_at};
ghost use Rattle.jv_grammar.specs.Files.{is_more_steps, next_step_at, path_at, package_at, star_at, import_at, file_at};

use crate::decls::decl_of;
use crate::halt::Halt;
use crate::tokens::{after_name, is_word, past_name, past_sign, past_word, sign_of, word_of};
use jv_tree::{Decl, File, Sign, Token};
use mg_text::List;
use std::alloc::Global;

// The tokens behind "." and a name, where these come next.
#[tactic(auto, unfolding(jv_grammar::specs::Files::next_step_at))]
fn past_step(tokens: &[Token]) -> Option<&[Token]>
    ensures it { IfSome result (λ r. rest_of (next_step_at tokens.now) ≡ Some r.now) }
    ensures comes { is_some result ≡ is_more_steps tokens.now }
{
    let (_, rest) = past_sign(tokens, Sign::Dot)?;
    let (_, _, rest) = past_name(rest)?;
    Some(rest)
}

// path = name { "." name }
fn path_of(tokens: &[Token]) -> Result<&[Token], Halt>
    ensures { Gives (λ x. x.now) result (rest_of (path_at tokens.now)) }
{
    let mut rest = after_name(tokens)?;
    'steps: while let Some(after) = past_step(rest) {
        rest = after;
    }
    Ok(rest)
}

// [ "package" path ";" ]
#[tactic(auto, unfolding(jv_grammar::specs::Files::package_at))]
fn package_of(tokens: &[Token]) -> Result<&[Token], Halt>
    ensures { Gives (λ x. x.now) result (package_at tokens.now) }
{
    if let Some((_, rest)) = past_word(tokens, "package") {
        let rest = path_of(rest)?;
        let (_, rest) = sign_of(rest, Sign::Semicolon)?;
        return Ok(rest);
    }
    Ok(tokens)
}

// [ "." "*" ] ";"
#[tactic(auto, unfolding(jv_grammar::specs::Files::star_at))]
fn star_of(tokens: &[Token]) -> Result<&[Token], Halt>
    ensures { Gives (λ x. x.now) result (star_at tokens.now) }
{
    if let Some((_, rest)) = past_sign(tokens, Sign::Dot) {
        let (_, rest) = sign_of(rest, Sign::Star)?;
        let (_, rest) = sign_of(rest, Sign::Semicolon)?;
        return Ok(rest);
    }
    let (_, rest) = sign_of(tokens, Sign::Semicolon)?;
    Ok(rest)
}

// "import" path [ "." "*" ] ";"
#[tactic(auto, unfolding(jv_grammar::specs::Files::import_at))]
fn import_of(tokens: &[Token]) -> Result<&[Token], Halt>
    ensures { Gives (λ x. x.now) result (rest_of (import_at tokens.now)) }
{
    let (_, rest) = word_of(tokens, "import")?;
    let rest = path_of(rest)?;
    star_of(rest)
}

// { import }
fn imports_of(tokens: &[Token]) -> Result<&[Token], Halt>
    ensures { Gives (λ x. x.now) result (rest_of (imports_at tokens.now)) }
{
    let mut rest = tokens;
    'imports: while is_word(rest, "import") {
        let after = import_of(rest)?;
        rest = after;
    }
    Ok(rest)
}

// { class | enum }, up to the end of the tokens.
fn decls_of(alloc: Global, tokens: &[Token]) -> Result<(List<Decl>, &[Token]), Halt>
    ensures { Gives (λ x. (map decl_of x.0.items, x.1.now)) result (decls_at tokens.now) }
{
    let mut decls = List::new(alloc);
    let mut rest = tokens;
    'turns: while !rest.is_empty() {
        let (decl, after) = decl_of(alloc, rest)?;
        decls.push(decl)?;
        rest = after;
    }
    Ok((decls, rest))
}

// [ package ] { import } { class | enum }
#[tactic(auto, unfolding(jv_grammar::specs::Files::file_at))]
pub(crate) fn file_of(alloc: Global, tokens: &[Token]) -> Result<File, Halt>
    ensures { Gives file_of result (file_at tokens.now) }
{
    let rest = package_of(tokens)?;
    let rest = imports_of(rest)?;
    let (decls, _) = decls_of(alloc, rest)?;
    Ok(File { decls })
}
