//! The calls that are tried where a method is being typed.

ghost use Rattle.std.specs.Prelude.{◌≡◌, [], ◌∷◌, ◌++◌, map, filter, fold, IfOk, OnOk};
ghost use Rattle.std.specs.List.{flat_map};
ghost use Rattle.ts_tree.specs.View.{method_of, state_of};
ghost use Rattle.lsp_offers.specs.Calls.{plain_call};
ghost use Rattle.lsp_offers.specs.Firsts.{text_by, with_first, firsts};
ghost use Rattle.lsp_offers.specs.Attempts.{forms_of, is_plain_type, is_plain, attempts_of, attempts};
ghost use Rattle.lsp_offers.specs.inner.Seen.{seen};

use crate::calls::plain_call;
use crate::firsts::{By, put_first, put_firsts};
use mg_text::{Memory, Names, Text};
use std::alloc::Global;
use ts_tree::{Method, State, TypeName, Typestate};

/// How a call stands in a text.
#[derive(Clone, Copy)]
pub(crate) enum Form {
    /// As it stands already.
    Standing,
    /// As a statement, with its semicolon.
    Statement,
    /// As a value, in an expression or before a semicolon that stands there.
    Value,
}

/// A call that is tried where a method is being typed.
#[derive(Drop)]
pub(crate) struct Attempt {
    /// How it stands there.
    pub form: Form,
    /// The call, without the path of its variable and without a semicolon.
    pub call: Text,
}

// Whether every program can write a value of a type.
fn is_plain_type(ty: &TypeName) -> bool
    ensures { result ≡ is_plain_type ty.now }
{
    match ty {
        TypeName::Void | TypeName::Int | TypeName::Boolean | TypeName::Text => true,
        TypeName::Named(_) => false,
    }
}

// Whether every program can write arguments of a method.
fn is_plain(method: &Method) -> bool
    ensures { result ≡ is_plain (method_of method.now) }
{
    method.params.as_slice().iter().all(|ty| is_plain_type(ty))
}

// Appends those of the plain ones of these methods that come first, behind others, whose result types are those that were met.
fn put_plain<'a>(
    met: &mut Names,
    found: &mut Vec<&'a Method>,
    methods: &'a [Method],
) -> Result<(), Memory>
    requires { met.old ≡ map (text_by By.Result) (seen found.old.items) }
    ensures met { OnOk result (met.new ≡ map (text_by By.Result) (seen found.new.items)) }
    ensures found { OnOk result (seen found.new.items
        ≡ fold (with_first By.Result) (seen found.old.items) (filter is_plain (map method_of methods.now))) }
{
    for method in methods {
        if !is_plain(method) {
            continue;
        }
        put_first(By::Result, met, found, method)?;
    }
    Ok(())
}

// The first method of each result type that states offer: of the plain ones, and then of all, in their order.
fn firsts_in<'a>(alloc: Global, states: &'a [State]) -> Result<Vec<&'a Method>, Memory>
    ensures { IfOk result (λ v. seen v.items ≡ firsts By.Result
        (flat_map (λ s. filter is_plain s.methods) (map state_of states.now) ++ flat_map (λ s. s.methods) (map state_of states.now))) }
{
    let mut met = Names::new(alloc);
    let mut found = Vec::new(alloc);
    for state in states {
        put_plain(&mut met, &mut found, state.methods.as_slice())?;
    }
    for state in states {
        put_firsts(By::Result, &mut met, &mut found, state.methods.as_slice())?;
    }
    Ok(found)
}

// Appends a call of a method in a form.
fn put_attempt(
    alloc: Global,
    out: &mut Vec<Attempt>,
    form: Form,
    method: &Method,
) -> Result<(), Memory>
    ensures { OnOk result (out.new.items ≡ out.old.items ++ record { form = form; call = plain_call (method_of method.now) } ∷ []) }
{
    let call = plain_call(alloc, method)?;
    out.push(Attempt { form, call })?;
    Ok(())
}

// Appends calls of methods, each in both forms.
fn put_forms(alloc: Global, out: &mut Vec<Attempt>, methods: &[&Method]) -> Result<(), Memory>
    ensures { OnOk result (out.new.items ≡ out.old.items ++ flat_map forms_of (seen methods.now)) }
{
    for method in methods {
        put_attempt(alloc, out, Form::Statement, method)?;
        put_attempt(alloc, out, Form::Value, method)?;
    }
    Ok(())
}

// Appends what is tried of a typestate.
fn put_attempts(alloc: Global, out: &mut Vec<Attempt>, typestate: &Typestate) -> Result<(), Memory>
    ensures { OnOk result (out.new.items ≡ out.old.items ++ attempts_of typestate.now) }
{
    let methods = firsts_in(alloc, typestate.states.as_slice())?;
    put_forms(alloc, out, methods.as_slice())
}

/// What is tried: what stands there already, and then calls of typestates.
///
/// # Errors
/// `Memory` only.
pub(crate) fn attempts(alloc: Global, typestates: &[Typestate]) -> Result<Vec<Attempt>, Memory>
    ensures { IfOk result (λ v. v.items ≡ attempts typestates.now) }
{
    let mut out = Vec::new(alloc);
    let call = Text::of(alloc, "")?;
    out.push(Attempt {
        form: Form::Standing,
        call,
    })?;
    for typestate in typestates {
        put_attempts(alloc, &mut out, typestate)?;
    }
    Ok(out)
}
