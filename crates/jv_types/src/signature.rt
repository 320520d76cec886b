//! What calls take and give.

ghost use Rattle.std.specs.Prelude.{◌≡◌, option_map};
ghost use Rattle.jv_tree.specs.BuiltIn.{method_seen};
ghost use Rattle.jv_tree.specs.View.{method_of};
ghost use Rattle.jv_rules.specs.Program.{Program};
ghost use Rattle.jv_rules.specs.Types.{signature_of};
ghost use Rattle.jv_rules.specs.Typing.{built_in, plain_signature, session_methods, text_methods};
ghost use Rattle.jv_types.specs.inner.Signatures.{signature_seen};
ghost use Rattle.jv_types.specs.Tables.{program_in};

use crate::name_table::Table;
use crate::value_type::{ValueType, meant, plain_type};
use jv_tree::{MethodDecl, Param, PlainMethod, PlainType, SessionCall, TextCall};

/// The parameters of a call.
#[derive(Clone, Copy)]
pub(crate) enum Params<'a> {
    Declared(&'a [Param]),
    /// Those of a method that every program has.
    Plain(&'static [PlainType]),
}

/// What a call takes and gives.
#[derive(Clone, Copy)]
pub(crate) struct Signature<'a> {
    pub params: Params<'a>,
    pub result: ValueType<'a>,
}

/// What calls of a method take and give.
pub(crate) fn signature_of<'a>(table: &Table<'_>, method: &'a MethodDecl) -> Signature<'a>
    ensures { signature_seen (program_in table.now) result ≡ signature_of (program_in table.now) (method_of method.now) }
{
    Signature {
        params: Params::Declared(method.params.as_slice()),
        result: meant(table, &method.result),
    }
}

// What calls of a method that every program has take and give.
fn plain_signature<'a>(method: PlainMethod) -> Signature<'a>
    ensures { (program : Program) → signature_seen program result ≡ plain_signature (method_seen method) }
{
    Signature {
        params: Params::Plain(method.params),
        result: plain_type(method.result),
    }
}

/// The method of `Session` of a name.
pub(crate) fn session_method<'a>(name: &str) -> Option<Signature<'a>>
    ensures { (program : Program) → option_map (signature_seen program) result ≡ built_in session_methods name.now }
{
    match SessionCall::named(name) {
        Some(call) => Some(plain_signature(call.method())),
        None => None,
    }
}

/// The method of texts of a name.
pub(crate) fn text_method<'a>(name: &str) -> Option<Signature<'a>>
    ensures { (program : Program) → option_map (signature_seen program) result ≡ built_in text_methods name.now }
{
    match TextCall::named(name) {
        Some(call) => Some(plain_signature(call.method())),
        None => None,
    }
}
