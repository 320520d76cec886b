//! What stands before the states: the package and the imports, which mean nothing, and the title.
//! Each function gives the tokens behind it.

ghost use Rattle.std.specs.Prelude.{◌≡◌};
ghost use Rattle.mg_read.specs.Parsing.{Gives};
ghost use Rattle.ts_parse.specs.Tok.{toks};
ghost use Rattle.ts_parse.specs.inner.Reading.{after_package, after_star, import_at, imports_at, title_at};

use crate::front::{is_mark, mark_of, name_of, path_of};
use crate::{Mark, Naming, Token};
use mg_read::ParseFault;
use mg_text::{List, Place};
use std::alloc::Global;

// [ "package" path ";" ]: the tokens behind it.
#[tactic(auto, unfolding(crate::specs::inner::Reading::after_package, crate::specs::inner::Reading::package_at))]
pub(crate) fn after_package(alloc: Global, tokens: &[Token]) -> Result<&[Token], ParseFault>
    ensures { Gives (λ x. toks x.now) result (after_package (toks tokens.now)) }
{
    if !is_mark(tokens, Mark::Package) {
        return Ok(tokens);
    }
    let (_, rest) = mark_of(tokens, Mark::Package)?;
    let (_, rest) = path_of(alloc, rest)?;
    let (_, rest) = mark_of(rest, Mark::Semicolon)?;
    Ok(rest)
}

// [ "." "*" ]: the tokens behind it.
#[tactic(auto, unfolding(crate::specs::inner::Reading::after_star))]
fn after_star(tokens: &[Token]) -> Result<&[Token], ParseFault>
    ensures { Gives (λ x. toks x.now) result (after_star (toks tokens.now)) }
{
    if is_mark(tokens, Mark::Dot) {
        let (_, rest) = mark_of(tokens, Mark::Dot)?;
        let (_, rest) = mark_of(rest, Mark::Star)?;
        return Ok(rest);
    }
    Ok(tokens)
}

// "import" path [ "." "*" ] ";": where it begins.
#[tactic(auto, unfolding(crate::specs::inner::Reading::import_at))]
fn import_of(alloc: Global, tokens: &[Token]) -> Result<(Place, &[Token]), ParseFault>
    ensures { Gives (λ x. (x.0, toks x.1.now)) result (import_at (toks tokens.now)) }
{
    let (place, rest) = mark_of(tokens, Mark::Import)?;
    let (_, rest) = path_of(alloc, rest)?;
    let rest = after_star(rest)?;
    let (_, rest) = mark_of(rest, Mark::Semicolon)?;
    Ok((place, rest))
}

// { import }: where each begins.
pub(crate) fn imports_of(
    alloc: Global,
    tokens: &[Token],
) -> Result<(List<Place>, &[Token]), ParseFault>
    ensures { Gives (λ x. (x.0.items, toks x.1.now)) result (imports_at (toks tokens.now)) }
{
    let mut imports = List::new(alloc);
    let mut rest = tokens;
    'others: while is_mark(rest, Mark::Import) {
        let (other, after) = import_of(alloc, rest)?;
        imports.push(other)?;
        rest = after;
    }
    Ok((imports, rest))
}

// "typestate" name "{"
#[tactic(auto, unfolding(crate::specs::inner::Reading::title_at))]
pub(crate) fn title_of(tokens: &[Token]) -> Result<(Naming, &[Token]), ParseFault>
    ensures { Gives (λ x. (x.0, toks x.1.now)) result (title_at (toks tokens.now)) }
{
    let (_, rest) = mark_of(tokens, Mark::Typestate)?;
    let (name, rest) = name_of(rest)?;
    let (_, rest) = mark_of(rest, Mark::OpenBrace)?;
    Ok((name, rest))
}
