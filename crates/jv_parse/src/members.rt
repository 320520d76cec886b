//! Reads the members of a class: its fields and its methods.
//! Of modifiers only `static` is kept.

ghost use Rattle.std.specs.Prelude.{◌≡◌, ◌++◌, ◌∷◌, [], OnOk, map, option_map};
ghost use Rattle.jv_tree.specs.Files.{fields_among, methods_among};
ghost use Rattle.jv_tree.specs.View.{expr_of, field_of, method_of};
ghost use Rattle.jv_parse.specs.inner.Gives.{Gives};
ghost use Rattle.jv_parse.specs.inner.Members.{behind_of, behind_at, value_at, member_of, sorted_at, sorted_members};
ghost use Rattle.jv_grammar.specs.Files.{result_at, param_at, params_at, is_args, args_at, params_of_at, is_void, is_main};
ghost use Rattle.jv_grammar.specs.Files.{member_at};

use crate::assigns::{after_final, ended_of, type_of};
use crate::halt::Halt;
use crate::modifiers::{Modifiers, after_mods, static_mods};
use crate::stmts::items_of;
use crate::tokens::{
    after_name, is_sign, is_word, name_of, past_sign, past_word, sign_of, word_of,
};
use jv_tree::{Expr, Field, MethodDecl, Param, Sign, Stmt, Token};
use mg_text::{List, Memory, Place, Text};
use std::alloc::Global;
use ts_tree::TypeName;

// How deep statements and expressions may stand one inside another.
const MOST_LEVELS: u8 = 200;

// What stands behind the name of a method.
#[derive(Drop)]
struct Behind {
    params: List<Param>,
    takes_args: bool,
    body: List<Stmt>,
    end: Place,
}

// A member of a class.
#[derive(Drop)]
enum Member {
    Field(Field),
    Method(MethodDecl),
}

// The members of a class, each kind in the order of the text.
#[derive(Drop)]
pub(crate) struct Members {
    pub(crate) fields: List<Field>,
    pub(crate) methods: List<MethodDecl>,
}

// "void" | type
#[tactic(auto, unfolding(jv_grammar::specs::Files::result_at))]
fn result_of(tokens: &[Token]) -> Result<(TypeName, &[Token]), Halt>
    ensures { Gives (λ x. (x.0, x.1.now)) result (result_at tokens.now) }
{
    if let Some((_, rest)) = past_word(tokens, "void") {
        return Ok((TypeName::Void, rest));
    }
    type_of(tokens)
}

// [ "final" ] type name
#[tactic(auto, unfolding(jv_grammar::specs::Files::param_at))]
fn param_of(tokens: &[Token]) -> Result<(Param, &[Token]), Halt>
    ensures { Gives (λ x. (x.0, x.1.now)) result (param_at tokens.now) }
{
    let (ty, rest) = type_of(after_final(tokens))?;
    let (place, name, rest) = name_of(rest)?;
    Ok((Param { place, ty, name }, rest))
}

// param { "," param }
fn params_of(alloc: Global, tokens: &[Token]) -> Result<(List<Param>, &[Token]), Halt>
    ensures { Gives (λ x. (x.0.items, x.1.now)) result (params_at tokens.now) }
{
    let (first, mut rest) = param_of(tokens)?;
    let mut params = List::new(alloc);
    params.push(first)?;
    'more: while let Some((_, next)) = past_sign(rest, Sign::Comma) {
        let (param, after) = param_of(next)?;
        params.push(param)?;
        rest = after;
    }
    Ok((params, rest))
}

// Whether the parameter of `main` comes next.
fn is_args(tokens: &[Token]) -> bool
    ensures { result ≡ is_args tokens.now }
{
    let Some((_, rest)) = tokens.split_first() else {
        return false;
    };
    is_word(tokens, "String") && is_sign(rest, Sign::OpenBracket)
}

// "String" "[" "]" name
#[tactic(auto, unfolding(jv_grammar::specs::Files::args_at))]
fn args_of(tokens: &[Token]) -> Result<&[Token], Halt>
    ensures { Gives (λ x. x.now) result (args_at tokens.now) }
{
    let (_, rest) = word_of(tokens, "String")?;
    let (_, rest) = sign_of(rest, Sign::OpenBracket)?;
    let (_, rest) = sign_of(rest, Sign::CloseBracket)?;
    after_name(rest)
}

// [ params ] of `main`, or of another method; and whether it is that of `main`.
#[tactic(auto, unfolding(jv_grammar::specs::Files::params_of_at))]
fn params_in(
    alloc: Global,
    tokens: &[Token],
    main: bool,
) -> Result<(List<Param>, bool, &[Token]), Halt>
    ensures { Gives (λ x. ((x.0.items, x.1), x.2.now)) result (params_of_at main tokens.now) }
{
    if is_sign(tokens, Sign::CloseParen) {
        return Ok((List::new(alloc), false, tokens));
    }
    if is_args(tokens) {
        if !main {
            let left = tokens.len().saturating_sub(1);
            return Err(Halt::Syntax { left });
        }
        let rest = args_of(tokens)?;
        return Ok((List::new(alloc), true, rest));
    }
    let (params, rest) = params_of(alloc, tokens)?;
    Ok((params, false, rest))
}

fn is_void(ty: &TypeName) -> bool
    ensures { result ≡ is_void ty.now }
{
    match ty {
        TypeName::Void => true,
        TypeName::Int | TypeName::Boolean | TypeName::Text | TypeName::Named(_) => false,
    }
}

// Whether it is the `main` of a program.
fn is_main(is_static: bool, ty: &TypeName, name: &Text) -> bool
    ensures { result ≡ is_main is_static ty.now name.now }
{
    is_static && is_void(ty) && name.as_str() == "main"
}

// "(" [ params ] ")" block, behind the name of a method.
#[tactic(auto, unfolding(jv_grammar::specs::Stmts::items_at, crate::specs::inner::Members::behind_at))]
fn behind_of(alloc: Global, tokens: &[Token], main: bool) -> Result<(Behind, &[Token]), Halt>
    ensures { Gives (λ x. (behind_of x.0, x.1.now)) result (behind_at main tokens.now) }
{
    let (_, rest) = sign_of(tokens, Sign::OpenParen)?;
    let (params, takes_args, rest) = params_in(alloc, rest, main)?;
    let (_, rest) = sign_of(rest, Sign::CloseParen)?;
    let (_, rest) = sign_of(rest, Sign::OpenBrace)?;
    let (body, rest) = items_of(alloc, rest, MOST_LEVELS)?;
    let (end, rest) = sign_of(rest, Sign::CloseBrace)?;
    let behind = Behind {
        params,
        takes_args,
        body,
        end,
    };
    Ok((behind, rest))
}

// [ "=" expr ] ";", behind the name of a field.
#[tactic(auto, unfolding(crate::specs::inner::Members::value_at))]
fn value_of(alloc: Global, tokens: &[Token]) -> Result<(Option<Expr>, &[Token]), Halt>
    ensures { Gives (λ x. (option_map expr_of x.0, x.1.now)) result (value_at tokens.now) }
{
    if let Some((_, rest)) = past_sign(tokens, Sign::Assign) {
        let (value, _, rest) = ended_of(alloc, rest, MOST_LEVELS)?;
        return Ok((Some(Box::into_inner(value)), rest));
    }
    let (_, rest) = sign_of(tokens, Sign::Semicolon)?;
    Ok((None, rest))
}

// A member with its modifiers: a method, or a field.
#[tactic(auto, using(crate::proofs::MemberTurns::method_is, crate::proofs::MemberTurns::field_is), unfolding(jv_grammar::specs::Files::member_at, jv_grammar::specs::Files::member_with))]
fn member_of(alloc: Global, tokens: &[Token]) -> Result<(Member, &[Token]), Halt>
    ensures { Gives (λ x. (member_of x.0, x.1.now)) result (member_at tokens.now) }
{
    let is_static = static_mods(tokens);
    let (ty, rest) = result_of(after_mods(Modifiers::OfMember, tokens))?;
    let (place, name, rest) = name_of(rest)?;
    if is_sign(rest, Sign::OpenParen) {
        let main = is_main(is_static, &ty, &name);
        let (behind, rest) = behind_of(alloc, rest, main)?;
        let method = MethodDecl {
            place,
            end: behind.end,
            is_static,
            result: ty,
            name,
            params: behind.params,
            takes_args: behind.takes_args,
            body: behind.body,
        };
        return Ok((Member::Method(method), rest));
    }
    if is_static || is_void(&ty) {
        return Err(Halt::Syntax { left: rest.len() });
    }
    let (value, rest) = value_of(alloc, rest)?;
    let field = Field {
        place,
        ty,
        name,
        value,
    };
    Ok((Member::Field(field), rest))
}

// One member more.
fn add_member(members: &mut Members, member: Member) -> Result<(), Memory>
    ensures fields { OnOk result (map field_of members.new.fields.items ≡ map field_of members.old.fields.items
        ++ fields_among (member_of member ∷ [])) }
    ensures methods { OnOk result (map method_of members.new.methods.items ≡ map method_of members.old.methods.items ++ methods_among
        (member_of member ∷ [])) }
{
    match member {
        Member::Field(field) => members.fields.push(field),
        Member::Method(method) => members.methods.push(method),
    }
}

// { member }
fn sorted_of(alloc: Global, tokens: &[Token]) -> Result<(Members, &[Token]), Halt>
    ensures { Gives (λ x. ((map field_of x.0.fields.items, map method_of x.0.methods.items), x.1.now)) result (sorted_at tokens.now) }
{
    let mut members = Members {
        fields: List::new(alloc),
        methods: List::new(alloc),
    };
    let mut rest = tokens;
    'turns: while !is_sign(rest, Sign::CloseBrace) {
        let (member, after) = member_of(alloc, rest)?;
        add_member(&mut members, member)?;
        rest = after;
    }
    Ok((members, rest))
}

// "{" { member } "}"
pub(crate) fn members_of(alloc: Global, tokens: &[Token]) -> Result<(Members, &[Token]), Halt>
    ensures { Gives (λ x. ((map field_of x.0.fields.items, map method_of x.0.methods.items), x.1.now)) result (sorted_members tokens.now) }
{
    let (_, rest) = sign_of(tokens, Sign::OpenBrace)?;
    let (members, rest) = sorted_of(alloc, rest)?;
    let (_, rest) = sign_of(rest, Sign::CloseBrace)?;
    Ok((members, rest))
}
