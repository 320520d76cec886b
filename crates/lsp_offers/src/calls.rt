//! Methods of a typestate as texts: their signatures, and calls of them with plain arguments.

ghost use Rattle.std.specs.Prelude.{◌≡◌, ◌++◌, IfOk, OnOk, string_bytes};
ghost use Rattle.ts_tree.specs.View.{method_of};
ghost use Rattle.lsp_offers.specs.Calls.{type_text, plain_text, listed, signature, plain_call};

use mg_text::{Memory, Text};
use std::alloc::Global;
use ts_tree::{Method, TypeName};

/// A type, as sources write it.
pub(crate) fn type_text(ty: &TypeName) -> &str
    ensures { result.now ≡ type_text ty.now }
{
    match ty {
        TypeName::Void => "void",
        TypeName::Int => "int",
        TypeName::Boolean => "boolean",
        TypeName::Text => "String",
        TypeName::Named(name) => name.as_str(),
    }
}

// A value of it that every program can write.
fn plain_text(ty: &TypeName) -> &'static str
    ensures { result.now ≡ plain_text ty.now }
{
    match ty {
        TypeName::Int => "0",
        TypeName::Boolean => "true",
        TypeName::Text => "\"\"",
        TypeName::Void | TypeName::Named(_) => "null",
    }
}

// Appends types, with commas between them.
fn put_types(out: &mut String, types: &[TypeName]) -> Result<(), Memory>
    ensures { OnOk result (string_bytes out.new ≡ string_bytes out.old ++ listed type_text types.now) }
{
    let [first, more @ ..] = types else {
        return Ok(());
    };
    out.push_str(type_text(first))?;
    for ty in more {
        out.push_str(", ")?;
        out.push_str(type_text(ty))?;
    }
    Ok(())
}

// Appends plain arguments of these types, with commas between them.
fn put_arguments(out: &mut String, types: &[TypeName]) -> Result<(), Memory>
    ensures { OnOk result (string_bytes out.new ≡ string_bytes out.old ++ listed plain_text types.now) }
{
    let [first, more @ ..] = types else {
        return Ok(());
    };
    out.push_str(plain_text(first))?;
    for ty in more {
        out.push_str(", ")?;
        out.push_str(plain_text(ty))?;
    }
    Ok(())
}

/// The signature of a method.
///
/// # Errors
/// `Memory` only.
pub(crate) fn signature(alloc: Global, method: &Method) -> Result<Text, Memory>
    ensures { IfOk result (λ t. t ≡ signature (method_of method.now)) }
{
    let mut out = String::new(alloc);
    out.push_str(type_text(&method.result))?;
    out.push_str(" ")?;
    out.push_str(method.name.as_str())?;
    out.push_str("(")?;
    put_types(&mut out, method.params.as_slice())?;
    out.push_str(")")?;
    Ok(Text::from_string(out))
}

/// A call of a method with plain arguments.
///
/// # Errors
/// `Memory` only.
pub(crate) fn plain_call(alloc: Global, method: &Method) -> Result<Text, Memory>
    ensures { IfOk result (λ t. t ≡ plain_call (method_of method.now)) }
{
    let mut out = String::new(alloc);
    out.push_str(method.name.as_str())?;
    out.push_str("(")?;
    put_arguments(&mut out, method.params.as_slice())?;
    out.push_str(")")?;
    Ok(Text::from_string(out))
}
