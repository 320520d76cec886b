//! What is judged at a call, once nothing is wrong with its receiver and its arguments:
//! that there is such a method, its arguments, and what the call may do to the own object.

ghost use Rattle.std.specs.Prelude.{◌≡◌, ◌||◌, ◌∷◌, ◌++◌, [], OnOk, MatchResult, map, length, option_map, None, false};
ghost use Rattle.jv_tree.specs.View.{expr_of, exprs_of};
ghost use Rattle.jv_tree.specs.Source.{Expr as Node, Call, MethodCall};
ghost use Rattle.jv_types.specs.inner.View.{type_seen};
ghost use Rattle.jv_types.specs.inner.Calls.{AreChecked, IsSite, ReceiverIs, site_told, called_on_named};
ghost use Rattle.jv_types.specs.inner.Judging.{Judges, Tells};
ghost use Rattle.jv_types.specs.inner.Scopes.{scope_seen, program_seen};
ghost use Rattle.jv_types.specs.inner.Signatures.{params_seen, signature_seen};
ghost use Rattle.jv_types.specs.Tables.{program_in};

use crate::arguments::{args_misfit, count_of};
use crate::callee::{called, called_on_class, called_on_this, called_on_value};
use crate::ends::either;
use crate::judged::{Checked, Wrong};
use crate::locals::Locals;
use crate::name_table::Table;
use crate::receivers::{field_named, field_of, own_call, receiver_misfit};
use crate::scope::Scope;
use crate::signature::{Params, Signature};
use crate::value_type::ValueType;
use crate::variable::variable_type;
use jv_rules::Condition;
use jv_tree::{Expr, Field};
use mg_text::{Memory, Place};
use std::alloc::Global;

/// Arguments in which nothing is wrong: their types, and whether a helper is called in them.
#[derive(Drop)]
pub(crate) struct Given<'a> {
    pub types: Vec<ValueType<'a>>,
    pub helper: bool,
}

impl<'a> Given<'a> {
    /// No argument.
    pub(crate) fn new(alloc: Global) -> Given<'a>
        ensures { (result.types.items ≡ []) × (result.helper ≡ false) }
    {
        Given {
            types: Vec::new(alloc),
            helper: false,
        }
    }

    /// One more argument.
    pub(crate) fn add(&mut self, arg: Checked<'a>) -> Result<(), Memory>
        ensures types { OnOk result (self.new.types.items ≡ self.old.types.items ++ arg.entry.ty ∷ []) }
        ensures helper { OnOk result (self.new.helper ≡ (self.old.helper || arg.entry.helper)) }
    {
        self.types.push(arg.ty)?;
        self.helper = either(self.helper, arg.helper);
        Ok(())
    }
}

/// What stands before `.name(..)`, where nothing is wrong with it.
#[derive(Clone, Copy)]
pub(crate) enum Receiver<'a> {
    /// `this`
    Own,
    /// A name of a variable or of a class.
    Named(&'a str),
    /// Another expression.
    Value(Checked<'a>),
}

/// A call, as it stands before its arguments are judged.
#[derive(Clone, Copy)]
pub(crate) struct Site<'a> {
    place: Place,
    name: &'a str,
    // The place of a receiver that has to be a variable and is none.
    receiver: Option<Place>,
    // Whether it is a method of the own protocol, called on the own object.
    is_own: bool,
    // The own field on which it is called.
    field: Option<&'a Field>,
    // Whether it is a helper, or one is called in the receiver.
    helper: bool,
}

// The first condition that a call whose method is known isn't right by.
#[tactic(auto, using(crate::proofs::CallSteps::sites))]
fn end_site<'a>(
    table: &Table<'_>,
    site: Site<'a>,
    params: Params<'_>,
    args: &[Expr],
    given: &Given<'_>,
) -> Result<(), Wrong<'a>>
    requires { length given.now.types.items ≡ length args.now }
    ensures { let fault = site_told site.entry (exprs_of (map expr_of args.now)) (params_seen (program_in table.now) params.entry)
        (map type_seen given.now.types.items) given.now.helper in
        MatchResult result (λ u. fault ≡ None) (λ w. Tells w fault) }
{
    if let Some(at) = site.receiver {
        return Err(Wrong::Fault(Condition::TypeMismatch, at, ""));
    }
    if let Some(at) = args_misfit(table, params, args, given.types.as_slice()) {
        return Err(Wrong::Fault(Condition::TypeMismatch, at, ""));
    }
    if args.len() != count_of(table, params) {
        return Err(Wrong::Fault(Condition::Arity, site.place, ""));
    }
    if site.is_own {
        return Err(Wrong::Fault(Condition::SelfCall, site.place, site.name));
    }
    if !given.helper {
        return Ok(());
    }
    match site.field {
        Some(field) => Err(Wrong::Fault(Condition::ArgsMayMove, site.place, field.name.as_str())),
        None => Ok(()),
    }
}

// A call of a method of this signature, or of none.
fn end_method<'a>(
    scope: &Scope<'_, 'a>,
    locals: &Locals<'a>,
    site: Site<'a>,
    signature: Option<Signature<'a>>,
    args: &[Expr],
    given: &Given<'_>,
) -> Result<Checked<'a>, Wrong<'a>>
    requires { AreChecked (scope_seen scope.now locals.now) (exprs_of (map expr_of args.now)) given.now }
    ensures { (e : Node) → IsSite (scope_seen scope.now locals.now) e site.entry
        (option_map (signature_seen (program_seen scope.now)) signature.entry) (exprs_of (map expr_of args.now)) →
        Judges (scope_seen scope.now locals.now) e result }
{
    let Some(signature) = signature else {
        return Err(Wrong::Fault(Condition::UnknownName, site.place, site.name));
    };
    end_site(scope.table, site, signature.params, args, given)?;
    Ok(Checked {
        ty: signature.result,
        helper: either(site.helper, given.helper),
    })
}

/// `name(..)`
pub(crate) fn end_call<'a>(
    scope: &Scope<'_, 'a>,
    locals: &Locals<'a>,
    place: Place,
    name: &'a str,
    args: &[Expr],
    given: &Given<'_>,
) -> Result<Checked<'a>, Wrong<'a>>
    requires { AreChecked (scope_seen scope.now locals.now) (exprs_of (map expr_of args.now)) given.now }
    ensures { Judges (scope_seen scope.now locals.now) (Call place name.now (exprs_of (map expr_of args.now))) result }
{
    let own = own_call(scope, locals, name);
    let site = Site {
        place,
        name,
        receiver: None,
        is_own: own.is_protocol,
        field: None,
        helper: own.is_helper,
    };
    let signature = called(scope, locals, name);
    end_method(scope, locals, site, signature, args, given)
}

// The signature of a method behind a name: on a variable's value, or else of a class.
fn called_on_name<'a>(
    scope: &Scope<'_, 'a>,
    locals: &Locals<'a>,
    x: &str,
    name: &str,
) -> Option<Signature<'a>>
    ensures { option_map (signature_seen (program_seen scope.now)) result ≡ called_on_named (scope_seen scope.now locals.now) x.now
        name.now }
{
    match variable_type(scope, locals, x) {
        Some(ty) => called_on_value(scope.table, ty, name),
        None => called_on_class(scope.table, x, name),
    }
}

/// `e.name(..)`
pub(crate) fn end_method_call<'a>(
    scope: &Scope<'_, 'a>,
    locals: &Locals<'a>,
    place: Place,
    of: &Expr,
    receiver: Receiver<'_>,
    name: &'a str,
    args: &[Expr],
    given: &Given<'_>,
) -> Result<Checked<'a>, Wrong<'a>>
    requires receiver { ReceiverIs (scope_seen scope.now locals.now) (expr_of of.now) receiver }
    requires fine { AreChecked (scope_seen scope.now locals.now) (exprs_of (map expr_of args.now)) given.now }
    ensures { Judges (scope_seen scope.now locals.now) (MethodCall place (expr_of of.now) name.now (exprs_of (map expr_of args.now)))
        result }
{
    match receiver {
        Receiver::Own => {
            let own = own_call(scope, locals, name);
            let site = Site {
                place,
                name,
                receiver: None,
                is_own: own.is_protocol,
                field: None,
                helper: own.is_helper,
            };
            let signature = called_on_this(scope, locals, name);
            end_method(scope, locals, site, signature, args, given)
        }
        Receiver::Named(x) => {
            let site = Site {
                place,
                name,
                receiver: None,
                is_own: false,
                field: field_named(scope, locals, x),
                helper: false,
            };
            let signature = called_on_name(scope, locals, x, name);
            end_method(scope, locals, site, signature, args, given)
        }
        Receiver::Value(inner) => {
            let site = Site {
                place,
                name,
                receiver: receiver_misfit(of, inner.ty),
                is_own: false,
                field: field_of(scope, locals, of),
                helper: inner.helper,
            };
            let signature = called_on_value(scope.table, inner.ty, name);
            end_method(scope, locals, site, signature, args, given)
        }
    }
}
