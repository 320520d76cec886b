//! What a method begins with: its arguments, and other locals of which nothing is known.

ghost use Rattle.std.specs.Prelude.{◌≡◌, ◌≤◌, length, take, get_or, if◌then◌else◌, [], IfOk};
ghost use Rattle.vm_model.specs.Start as model;
ghost use Rattle.vm_model.specs.View.{method_of};
ghost use Rattle.cls_search.specs.Beginning.{any_number, first_kinds};

use cls_kinds::Kind;
use mg_text::Memory;
use std::alloc::Global;
use vm_model::LinkedMethod;

/// An instruction names a local below this. What the others hold never matters.
const MOST_LOCALS: usize = 256;

/// Whether a run may begin with this method.
fn is_main(method: &LinkedMethod) -> bool
    ensures { result ≡ model.is_main (method_of method.now) }
{
    method.name.as_str() == "main"
        && (method.is_static && method.descriptor.as_str() == "([Ljava/lang/String;)V")
}

/// The kind of a local at the first place. Of those of `main` nothing is known.
fn first_kind(arguments: &[Kind], is_main: bool, local: usize) -> Kind
    ensures { result ≡ get_or (if is_main then [] else arguments.now) local any_number }
{
    if is_main {
        return Kind::ANY;
    }
    match arguments.get(local) {
        Some(kind) => *kind,
        None => Kind::ANY,
    }
}

/// The kinds of the locals at the first place, for as many as instructions name.
pub(crate) fn first_row(
    alloc: Global,
    method: &LinkedMethod,
    arguments: &[Kind],
) -> Result<Vec<Kind>, Memory>
    requires { length arguments.now ≤ method.now.max_locals }
    ensures { IfOk result (λ row. row.items ≡ take 256 (first_kinds (method_of method.now) arguments.now)) }
{
    let count = usize::from(method.max_locals).min(MOST_LOCALS);
    let is_main = is_main(method);
    let mut row = Vec::with_capacity(alloc, count)?;
    for local in 0..count {
        row.push(first_kind(arguments, is_main, local))?;
    }
    Ok(row)
}
