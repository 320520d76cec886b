//! A protocol of a file: its name, its roles, its body, and what stands between the parentheses in
//! the body.

ghost use Rattle.std.specs.Prelude.{◌≡◌, ◌≤◌, length};
ghost use Rattle.mg_read.specs.Reader.{all_of};
ghost use Rattle.scr_tree.specs.Tok.{toks};
ghost use Rattle.scr_tree.specs.Written.{part_written};
ghost use Rattle.scr_parse.specs.Answer.{Gives};
ghost use Rattle.scr_parse.specs.inner.Kinds.{IsTable};
ghost use Rattle.scr_parse.specs.inner.View.{all_parts};
ghost use Rattle.scr_parse.specs.inner.Reading.{up_to, part_at, is_more};

use crate::arguments::arguments_of;
use crate::body::OfLocal;
use crate::carries::carries_of;
use crate::fault::ParseFault;
use crate::header::{Header, header_of, title_of};
use crate::nest::block_of;
use crate::types::Types;
use mg_text::List;
use scr_tree::{Token, WrittenPart};
use std::alloc::Global;

/// Statements that may stand one inside another.
const MAX_DEPTH: u8 = 200;

// The tokens in front of those that are left.
fn up_to<'a>(tokens: &'a [Token], left: &[Token]) -> &'a [Token]
    ensures { toks result.now ≡ up_to (toks tokens.now) (toks left.now) }
{
    let count = tokens.len().saturating_sub(left.len());
    let (front, _) = tokens.split_at(count);
    front
}

/// title header block
#[tactic(auto, using(crate::proofs::Views::statements_joined), unfolding(crate::specs::inner::Reading::part_at))]
pub(crate) fn part_of<'a>(
    alloc: Global,
    types: &Types,
    tokens: &'a [Token],
) -> Result<(WrittenPart, &'a [Token]), ParseFault>
    requires { IsTable types.now }
    ensures { Gives (λ x. (part_written x.0, toks x.1.now)) result (part_at types.now.declared.items (toks tokens.now)) }
{
    let (place, name, rest) = title_of(tokens)?;
    let (header, rest) = header_of(alloc, rest)?;
    let (body, left) = block_of::<OfLocal>(alloc, types, rest, MAX_DEPTH)?;
    let block = up_to(rest, left);
    let carries = carries_of(alloc, block)?;
    let arguments = arguments_of(alloc, block)?;
    let Header { me, roles } = header;
    let part = WrittenPart {
        place,
        name,
        me,
        roles,
        carries,
        arguments,
        body,
    };
    Ok((part, left))
}

/// { title header block }, up to the end of the tokens
pub(crate) fn parts_of<'a>(
    alloc: Global,
    types: &Types,
    tokens: &'a [Token],
) -> Result<(List<WrittenPart>, &'a [Token]), ParseFault>
    requires { IsTable types.now }
    ensures { Gives (λ x. (all_parts x.0.items, toks x.1.now)) result
        (all_of is_more (part_at types.now.declared.items) (toks tokens.now)) }
{
    let mut parts = List::new(alloc);
    let mut rest = tokens;
    'parts: while !rest.is_empty() {
        let (part, after) = part_of(alloc, types, rest)?;
        parts.push(part)?;
        rest = after;
    }
    Ok((parts, rest))
}
