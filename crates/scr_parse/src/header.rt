//! What stands before the body of a protocol: the module's name, which is dropped, the
//! protocol's name, and its roles.

ghost use Rattle.std.specs.Prelude.{◌≡◌};
ghost use Rattle.scr_tree.specs.Tok.{toks};
ghost use Rattle.scr_parse.specs.Answer.{Gives};
ghost use Rattle.scr_parse.specs.inner.Reading.{after_module, title_at, role_at, earlier_role_at, other_role_at, more_roles_at};
ghost use Rattle.scr_parse.specs.inner.Reading.{roles_at, is_other_role, earlier_roles_at, self_at, myself_at, at_header_at};
ghost use Rattle.scr_parse.specs.inner.Reading.{self_header_at, header_at};

use crate::fault::ParseFault;
use crate::front::{is_mark, mark_of, name_of, names_of};
use mg_text::{List, Place, Text};
use scr_tree::{Mark, Role, Token};
use std::alloc::Global;

/// The role that a protocol is of, and all roles that are listed.
#[derive(Drop)]
pub(crate) struct Header {
    pub me: Role,
    pub roles: List<Role>,
}

/// [ "module" name { "." name } ";" ]: the tokens behind it.
#[tactic(auto, unfolding(crate::specs::inner::Reading::after_module, crate::specs::inner::Reading::module_at))]
pub fn after_module(alloc: Global, tokens: &[Token]) -> Result<&[Token], ParseFault>
    ensures { Gives (λ x. toks x.now) result (after_module (toks tokens.now)) }
{
    if !is_mark(tokens, Mark::Module) {
        return Ok(tokens);
    }
    let (_, rest) = mark_of(tokens, Mark::Module)?;
    let (_, rest) = names_of(alloc, rest, Mark::Dot)?;
    let (_, rest) = mark_of(rest, Mark::Semicolon)?;
    Ok(rest)
}

// "local" "protocol" name
#[tactic(auto, unfolding(crate::specs::inner::Reading::title_at))]
pub(crate) fn title_of(tokens: &[Token]) -> Result<(Place, Text, &[Token]), ParseFault>
    ensures { Gives (λ x. ((x.0, x.1), toks x.2.now)) result (title_at (toks tokens.now)) }
{
    let (_, rest) = mark_of(tokens, Mark::Local)?;
    let (_, rest) = mark_of(rest, Mark::Protocol)?;
    name_of(rest)
}

// "role" name
#[tactic(auto, unfolding(crate::specs::inner::Reading::role_at))]
fn role_of(tokens: &[Token]) -> Result<(Role, &[Token]), ParseFault>
    ensures { Gives (λ x. (x.0, toks x.1.now)) result (role_at (toks tokens.now)) }
{
    let (_, rest) = mark_of(tokens, Mark::Role)?;
    let (place, name, rest) = name_of(rest)?;
    Ok((Role { place, name }, rest))
}

// role ","
#[tactic(auto, unfolding(crate::specs::inner::Reading::earlier_role_at))]
fn earlier_role_of(tokens: &[Token]) -> Result<(Role, &[Token]), ParseFault>
    ensures { Gives (λ x. (x.0, toks x.1.now)) result (earlier_role_at (toks tokens.now)) }
{
    let (role, rest) = role_of(tokens)?;
    let (_, rest) = mark_of(rest, Mark::Comma)?;
    Ok((role, rest))
}

// "," role
#[tactic(auto, unfolding(crate::specs::inner::Reading::other_role_at))]
fn other_role_of(tokens: &[Token]) -> Result<(Role, &[Token]), ParseFault>
    ensures { Gives (λ x. (x.0, toks x.1.now)) result (other_role_at (toks tokens.now)) }
{
    let (_, rest) = mark_of(tokens, Mark::Comma)?;
    role_of(rest)
}

// { "," role }, behind roles that were read.
fn more_roles_of(roles: List<Role>, tokens: &[Token]) -> Result<(List<Role>, &[Token]), ParseFault>
    ensures { Gives (λ x. (x.0.items, toks x.1.now)) result (more_roles_at roles.items (toks tokens.now)) }
{
    let mut roles = roles;
    let mut rest = tokens;
    'others: while is_mark(rest, Mark::Comma) {
        let (other, after) = other_role_of(rest)?;
        roles.push(other)?;
        rest = after;
    }
    Ok((roles, rest))
}

/// role { "," role }
#[tactic(auto, unfolding(crate::specs::inner::Reading::roles_at))]
pub fn roles_of(alloc: Global, tokens: &[Token]) -> Result<(List<Role>, &[Token]), ParseFault>
    ensures { Gives (λ x. (x.0.items, toks x.1.now)) result (roles_at (toks tokens.now)) }
{
    let (first, rest) = role_of(tokens)?;
    let mut roles = List::new(alloc);
    roles.push(first)?;
    more_roles_of(roles, rest)
}

// Whether "role" comes next, with no "self" behind it.
fn is_other_role(tokens: &[Token]) -> bool
    ensures { result ≡ is_other_role (toks tokens.now) }
{
    let Some((_, rest)) = tokens.split_first() else {
        return false;
    };
    if is_mark(tokens, Mark::Role) {
        !is_mark(rest, Mark::Myself)
    } else {
        false
    }
}

// { role "," }
fn earlier_roles_of(alloc: Global, tokens: &[Token]) -> Result<(List<Role>, &[Token]), ParseFault>
    ensures { Gives (λ x. (x.0.items, toks x.1.now)) result (earlier_roles_at (toks tokens.now)) }
{
    let mut roles = List::new(alloc);
    let mut rest = tokens;
    'others: while is_other_role(rest) {
        let (other, after) = earlier_role_of(rest)?;
        roles.push(other)?;
        rest = after;
    }
    Ok((roles, rest))
}

// "self" name
#[tactic(auto, unfolding(crate::specs::inner::Reading::self_at))]
fn self_of(tokens: &[Token]) -> Result<(Role, &[Token]), ParseFault>
    ensures { Gives (λ x. (x.0, toks x.1.now)) result (self_at (toks tokens.now)) }
{
    let (_, rest) = mark_of(tokens, Mark::Myself)?;
    let (place, name, rest) = name_of(rest)?;
    Ok((Role { place, name }, rest))
}

// "self" name | "role" "self" name
#[tactic(auto, unfolding(crate::specs::inner::Reading::myself_at))]
fn myself_of(tokens: &[Token]) -> Result<(Role, &[Token]), ParseFault>
    ensures { Gives (λ x. (x.0, toks x.1.now)) result (myself_at (toks tokens.now)) }
{
    if is_mark(tokens, Mark::Role) {
        let (_, rest) = mark_of(tokens, Mark::Role)?;
        return self_of(rest);
    }
    self_of(tokens)
}

// "at" name "(" roles ")"
#[tactic(auto, unfolding(crate::specs::inner::Reading::at_header_at))]
fn at_header_of(alloc: Global, tokens: &[Token]) -> Result<(Header, &[Token]), ParseFault>
    ensures { Gives (λ x. ((x.0.me, x.0.roles.items), toks x.1.now)) result (at_header_at (toks tokens.now)) }
{
    let (_, rest) = mark_of(tokens, Mark::At)?;
    let (place, name, rest) = name_of(rest)?;
    let (_, rest) = mark_of(rest, Mark::OpenParen)?;
    let (roles, rest) = roles_of(alloc, rest)?;
    let (_, rest) = mark_of(rest, Mark::CloseParen)?;
    let me = Role { place, name };
    Ok((Header { me, roles }, rest))
}

// "(" entries ")", exactly one of which has "self"
#[tactic(auto, unfolding(crate::specs::inner::Reading::self_header_at))]
fn self_header_of(alloc: Global, tokens: &[Token]) -> Result<(Header, &[Token]), ParseFault>
    ensures { Gives (λ x. ((x.0.me, x.0.roles.items), toks x.1.now)) result (self_header_at (toks tokens.now)) }
{
    let (_, rest) = mark_of(tokens, Mark::OpenParen)?;
    let (earlier, rest) = earlier_roles_of(alloc, rest)?;
    let (me, rest) = myself_of(rest)?;
    let name = me.name.copy()?;
    let mut roles = earlier;
    roles.push(Role {
        place: me.place,
        name,
    })?;
    let (roles, rest) = more_roles_of(roles, rest)?;
    let (_, rest) = mark_of(rest, Mark::CloseParen)?;
    Ok((Header { me, roles }, rest))
}

// The roles, in either form.
#[tactic(auto, unfolding(crate::specs::inner::Reading::header_at))]
pub(crate) fn header_of(alloc: Global, tokens: &[Token]) -> Result<(Header, &[Token]), ParseFault>
    ensures { Gives (λ x. ((x.0.me, x.0.roles.items), toks x.1.now)) result (header_at (toks tokens.now)) }
{
    if is_mark(tokens, Mark::At) {
        at_header_of(alloc, tokens)
    } else {
        self_header_of(alloc, tokens)
    }
}
