//! Methods.
//! Contracts see them as trees, with the names that have numbers by then.

ghost use Rattle.std.specs.Prelude.{◌≡◌, [], IfOk, length, map};
ghost use Rattle.jv_tree.specs.View.{method_of as source_method};
ghost use Rattle.jv_core.specs.View.{method_of, stmt_of};
ghost use Rattle.jv_resolve_law.specs.Tables.{is_offered, kind_meant};
ghost use Rattle.jv_resolve_law.specs.Members.{params as params_meant, method as method_meant, methods_of as methods_of_meant};
ghost use Rattle.jv_resolve_law.specs.Members.{methods as methods_meant};
ghost use Rattle.jv_resolve.specs.inner.Counted.{counted_seen, counting};
ghost use Rattle.jv_resolve.specs.inner.Gives.{Gives};
ghost use Rattle.jv_resolve.specs.inner.Naming.{naming, with_done, opened, param_at};
ghost use Rattle.jv_resolve.specs.inner.Seen.{entry_seen, tables_seen, standing_seen};
ghost use Rattle.jv_resolve.specs.inner.Signatures.{signature_meant, body_meant};
ghost use Rattle.jv_resolve.specs.inner.SignaturesSeen.{signature_seen};

use crate::body::Body;
use crate::given::Unresolved;
use crate::locals::declare;
use crate::lookup::{meant, protocol_at};
use crate::names::{add_name, count};
use crate::scope::{Around, Scope};
use crate::stmts::resolve_stmts;
use jv_core::{CoreMethod, CoreStmt, CoreType, MethodKind};
use jv_tree::{MethodDecl, Param};
use jv_types::{ClassEntry, Table};
use mg_text::{List, Name, Names};
use std::alloc::Global;

// Whether the typestate of a class offers a method of this name.
fn is_offered(table: &Table<'_>, entry: &ClassEntry<'_>, name: &str) -> bool
    ensures { result ≡ is_offered (tables_seen table.now) (entry_seen entry.now) name.now }
{
    match entry.typestate {
        None => false,
        Some(named) => match protocol_at(table, named.number) {
            None => false,
            Some(followed) => followed.has_offer(name),
        },
    }
}

// What a method is.
fn kind_of(table: &Table<'_>, entry: &ClassEntry<'_>, method: &MethodDecl) -> MethodKind
    ensures { result ≡ kind_meant (tables_seen table.now) (entry_seen entry.now) (source_method method.now) }
{
    if method.is_static {
        if method.takes_args {
            return MethodKind::Main;
        }
        return MethodKind::Static;
    }
    if is_offered(table, entry, method.name.as_str()) {
        return MethodKind::Protocol;
    }
    MethodKind::Helper
}

// A parameter, which is in scope from then on.
fn resolve_param<'a>(
    table: &Table<'_>,
    body: &mut Body<'a>,
    param: &'a Param,
) -> Result<(), Unresolved>
    ensures { Gives (λ u. opened body.new.locals (counted_seen body.new)) result
        (param_at (tables_seen table.now) param.now body.old.locals (counted_seen body.old)) }
{
    let local = body.add_slot(table, &param.ty, param.name.as_str())?;
    declare(&mut body.locals, param.name.as_str(), local)?;
    Ok(())
}

// Parameters.
fn resolve_params<'a>(
    table: &Table<'_>,
    body: &mut Body<'a>,
    params: &'a [Param],
) -> Result<(), Unresolved>
    ensures { Gives (λ u. opened body.new.locals (counted_seen body.new)) result
        (params_meant (tables_seen table.now) params.now body.old.locals (counted_seen body.old)) }
{
    for param in params {
        resolve_param(table, body, param)?;
    }
    Ok(())
}

// What stands before the body of a method: its name, its result, and how many parameters it has.
#[derive(Clone, Copy)]
struct Signature {
    name: Name,
    result: CoreType,
    params: u32,
}

// What stands before the body of a method.
fn signature_of(
    table: &Table<'_>,
    names: &mut Names,
    method: &MethodDecl,
) -> Result<Signature, Unresolved>
    ensures it { Gives (λ s. naming (signature_seen s) names.new) result
        (signature_meant (tables_seen table.now) names.old (source_method method.now)) }
    ensures params { IfOk result (λ s. s.params ≡ length (source_method method.now).params) }
{
    let name = add_name(names, method.name.as_str())?;
    let result = meant(table, &method.result)?;
    let params = count(method.params.len())?;
    Ok(Signature {
        name,
        result,
        params,
    })
}

// The statements of a method, with its parameters in scope.
fn resolve_body<'a>(
    scope: &Scope<'_, 'a>,
    body: &mut Body<'a>,
    method: &'a MethodDecl,
) -> Result<List<CoreStmt>, Unresolved>
    ensures { Gives (λ l. counting (map stmt_of l.items) (counted_seen body.new)) result
        (body_meant (tables_seen scope.now.table.now) (standing_seen scope.now) (source_method method.now) body.old.locals
        (counted_seen body.old)) }
{
    resolve_params(scope.table, body, method.params.as_slice())?;
    resolve_stmts(scope, &Around::Outside, body, method.body.as_slice())
}

/// A method, and the names that have numbers by then.
#[derive(Drop)]
pub(crate) struct NamedMethod {
    pub method: CoreMethod,
    pub names: Names,
}

// A method of a class.
fn resolve_method<'a>(
    alloc: Global,
    table: &Table<'a>,
    names: Names,
    entry: &ClassEntry<'a>,
    method: &'a MethodDecl,
) -> Result<NamedMethod, Unresolved>
    ensures { Gives (λ r. naming (method_of r.method) r.names) result
        (method_meant (tables_seen table.now) names (entry_seen entry.now) (source_method method.now)) }
{
    let scope = Scope {
        alloc,
        table,
        class: entry,
        is_static: method.is_static,
    };
    let mut names = names;
    let signature = signature_of(table, &mut names, method)?;
    let mut body = Body::new(alloc, names);
    let stmts = resolve_body(&scope, &mut body, method)?;
    let kind = kind_of(table, entry, method);
    Ok(NamedMethod {
        method: CoreMethod {
            place: method.place,
            end: method.end,
            class: entry.number,
            name: signature.name,
            kind,
            result: signature.result,
            params: signature.params,
            slots: body.slots,
            loops: body.loops,
            body: stmts,
        },
        names: body.names,
    })
}

// The methods of a class, behind those of the classes before it; and the names that have numbers by then.
fn resolve_methods_of<'a>(
    alloc: Global,
    table: &Table<'a>,
    names: Names,
    entry: &ClassEntry<'a>,
    resolved: &mut List<CoreMethod>,
    methods: &'a [MethodDecl],
) -> Result<Names, Unresolved>
    ensures { Gives (λ n. naming (map method_of resolved.new.items) n) result
        (with_done (map method_of resolved.old.items)
        (methods_of_meant (tables_seen table.now) names (entry_seen entry.now) (map source_method methods.now))) }
{
    let mut known = names;
    for method in methods {
        let one = resolve_method(alloc, table, known, entry, method)?;
        known = one.names;
        resolved.push(one.method)?;
    }
    Ok(known)
}

/// The methods of classes.
#[derive(Drop)]
pub(crate) struct NamedMethods {
    pub methods: List<CoreMethod>,
    pub names: Names,
}

/// The methods of classes, and the names that have numbers by then.
pub(crate) fn resolve_methods<'a>(
    alloc: Global,
    table: &Table<'a>,
    names: Names,
    entries: &[ClassEntry<'a>],
) -> Result<NamedMethods, Unresolved>
    ensures { Gives (λ r. naming (map method_of r.methods.items) r.names) result
        (methods_meant (tables_seen table.now) names (map entry_seen entries.now)) }
{
    let mut known = names;
    let mut methods = List::new(alloc);
    for entry in entries {
        let written = entry.class.methods.as_slice();
        let after = resolve_methods_of(alloc, table, known, entry, &mut methods, written)?;
        known = after;
    }
    Ok(NamedMethods {
        methods,
        names: known,
    })
}
