//! A method of a state: its result, its name, its parameters and where its calls lead.
//! Each function gives what it read, and the tokens behind it.

ghost use Rattle.std.specs.Prelude.{◌≡◌, map, option_map};
ghost use Rattle.mg_read.specs.Reader.{all_of};
ghost use Rattle.mg_read.specs.Parsing.{Gives};
ghost use Rattle.mg_read.proofs.Loop.{with_front};
ghost use Rattle.ts_parse.specs.declared.token.Mark.TheVariants as marks;
ghost use Rattle.ts_parse.specs.Tok.{toks};
ghost use Rattle.ts_parse.specs.Grammar.{type_named, param_named};
ghost use Rattle.ts_parse.specs.Written.{wtarget_of, wmethod_of};
ghost use Rattle.ts_parse.specs.inner.Reading.{is_at, behind_at, listed_at, param_at, params_at, branch_at, answers_at, target_at, head_at};
ghost use Rattle.ts_parse.specs.inner.Reading.{method_at};

use crate::front::{is_mark, mark_of, name_of};
use crate::{Mark, Naming, Token, WrittenBranch, WrittenMethod, WrittenTarget};
use mg_read::ParseFault;
use mg_text::{List, Place, Text};
use std::alloc::Global;
use ts_tree::TypeName;

// The type that a name means.
fn type_named(text: Text) -> TypeName
    ensures { result ≡ type_named text }
{
    match text.as_str() {
        "void" => TypeName::Void,
        "int" => TypeName::Int,
        "boolean" => TypeName::Boolean,
        "String" => TypeName::Text,
        _ => TypeName::Named(text),
    }
}

// The type of a parameter, which is never void.
#[tactic(auto, unfolding(crate::specs::inner::Reading::param_at))]
fn param_of(tokens: &[Token]) -> Result<(TypeName, &[Token]), ParseFault>
    ensures { Gives (λ x. (x.0, toks x.1.now)) result (param_at (toks tokens.now)) }
{
    let (name, rest) = name_of(tokens)?;
    if name.text.as_str() == "void" {
        return Err(ParseFault::Syntax(Some(name.place)));
    }
    Ok((type_named(name.into_text()), rest))
}

// "," parameter
#[tactic(auto, unfolding(crate::specs::inner::Reading::behind_at))]
fn other_param_of(tokens: &[Token]) -> Result<(TypeName, &[Token]), ParseFault>
    ensures { Gives (λ x. (x.0, toks x.1.now)) result (behind_at marks.Comma param_at (toks tokens.now)) }
{
    let (_, rest) = mark_of(tokens, Mark::Comma)?;
    param_of(rest)
}

// { "," parameter }, behind parameters that were read.
fn more_params_of(
    params: List<TypeName>,
    tokens: &[Token],
) -> Result<(List<TypeName>, &[Token]), ParseFault>
    ensures { Gives (λ x. (x.0.items, toks x.1.now)) result
        (with_front params.items (all_of (is_at marks.Comma) (behind_at marks.Comma param_at) (toks tokens.now))) }
{
    let mut params = params;
    let mut rest = tokens;
    'others: while is_mark(rest, Mark::Comma) {
        let (other, after) = other_param_of(rest)?;
        params.push(other)?;
        rest = after;
    }
    Ok((params, rest))
}

// [ parameter { "," parameter } ], up to ")"
#[tactic(auto, unfolding(crate::specs::inner::Reading::params_at, crate::specs::inner::Reading::listed_at))]
fn params_of(alloc: Global, tokens: &[Token]) -> Result<(List<TypeName>, &[Token]), ParseFault>
    ensures { Gives (λ x. (x.0.items, toks x.1.now)) result (params_at (toks tokens.now)) }
{
    if is_mark(tokens, Mark::CloseParen) {
        return Ok((List::new(alloc), tokens));
    }
    let (first, rest) = param_of(tokens)?;
    let mut params = List::new(alloc);
    params.push(first)?;
    more_params_of(params, rest)
}

// name ":" name
#[tactic(auto, unfolding(crate::specs::inner::Reading::branch_at))]
fn branch_of(tokens: &[Token]) -> Result<(WrittenBranch, &[Token]), ParseFault>
    ensures { Gives (λ x. (x.0, toks x.1.now)) result (branch_at (toks tokens.now)) }
{
    let (label, rest) = name_of(tokens)?;
    let (_, rest) = mark_of(rest, Mark::Colon)?;
    let (to, rest) = name_of(rest)?;
    Ok((WrittenBranch { label, to }, rest))
}

// "," branch
#[tactic(auto, unfolding(crate::specs::inner::Reading::behind_at))]
fn other_branch_of(tokens: &[Token]) -> Result<(WrittenBranch, &[Token]), ParseFault>
    ensures { Gives (λ x. (x.0, toks x.1.now)) result (behind_at marks.Comma branch_at (toks tokens.now)) }
{
    let (_, rest) = mark_of(tokens, Mark::Comma)?;
    branch_of(rest)
}

// { "," branch }, behind branches that were read.
fn more_branches_of(
    branches: List<WrittenBranch>,
    tokens: &[Token],
) -> Result<(List<WrittenBranch>, &[Token]), ParseFault>
    ensures { Gives (λ x. (x.0.items, toks x.1.now)) result
        (with_front branches.items (all_of (is_at marks.Comma) (behind_at marks.Comma branch_at) (toks tokens.now))) }
{
    let mut branches = branches;
    let mut rest = tokens;
    'others: while is_mark(rest, Mark::Comma) {
        let (other, after) = other_branch_of(rest)?;
        branches.push(other)?;
        rest = after;
    }
    Ok((branches, rest))
}

// branch { "," branch }
#[tactic(auto, unfolding(crate::specs::inner::Reading::listed_at))]
fn branches_of(
    alloc: Global,
    tokens: &[Token],
) -> Result<(List<WrittenBranch>, &[Token]), ParseFault>
    ensures { Gives (λ x. (x.0.items, toks x.1.now)) result (listed_at marks.Comma (is_at marks.Comma) branch_at (toks tokens.now)) }
{
    let (first, rest) = branch_of(tokens)?;
    let mut branches = List::new(alloc);
    branches.push(first)?;
    more_branches_of(branches, rest)
}

// "<" branches ">"
#[tactic(auto, unfolding(crate::specs::inner::Reading::answers_at))]
fn answers_of(alloc: Global, tokens: &[Token]) -> Result<(WrittenTarget, &[Token]), ParseFault>
    ensures { Gives (λ x. (wtarget_of x.0, toks x.1.now)) result (answers_at (toks tokens.now)) }
{
    let (_, rest) = mark_of(tokens, Mark::Less)?;
    let (branches, rest) = branches_of(alloc, rest)?;
    let (_, rest) = mark_of(rest, Mark::Greater)?;
    Ok((WrittenTarget::ByAnswer(branches), rest))
}

// name | "<" branches ">"
#[tactic(auto, unfolding(crate::specs::inner::Reading::target_at))]
fn target_of(alloc: Global, tokens: &[Token]) -> Result<(WrittenTarget, &[Token]), ParseFault>
    ensures { Gives (λ x. (wtarget_of x.0, toks x.1.now)) result (target_at (toks tokens.now)) }
{
    if is_mark(tokens, Mark::Less) {
        return answers_of(alloc, tokens);
    }
    let (name, rest) = name_of(tokens)?;
    Ok((WrittenTarget::One(name), rest))
}

// type name "("
#[tactic(auto, unfolding(crate::specs::inner::Reading::head_at))]
fn head_of(tokens: &[Token]) -> Result<(TypeName, Naming, &[Token]), ParseFault>
    ensures { Gives (λ x. ((x.0, x.1), toks x.2.now)) result (head_at (toks tokens.now)) }
{
    let (result_name, rest) = name_of(tokens)?;
    let (name, rest) = name_of(rest)?;
    let (_, rest) = mark_of(rest, Mark::OpenParen)?;
    Ok((type_named(result_name.into_text()), name, rest))
}

// type name "(" parameters ")" ":" target
#[tactic(auto, unfolding(crate::specs::inner::Reading::method_at))]
pub(crate) fn method_of(
    alloc: Global,
    tokens: &[Token],
) -> Result<(WrittenMethod, &[Token]), ParseFault>
    ensures { Gives (λ x. (wmethod_of x.0, toks x.1.now)) result (method_at (toks tokens.now)) }
{
    let (type_name, name, rest) = head_of(tokens)?;
    let (params, rest) = params_of(alloc, rest)?;
    let (_, rest) = mark_of(rest, Mark::CloseParen)?;
    let (_, rest) = mark_of(rest, Mark::Colon)?;
    let (target, rest) = target_of(alloc, rest)?;
    Ok((
        WrittenMethod {
            result: type_name,
            name,
            params,
            target,
        },
        rest,
    ))
}
