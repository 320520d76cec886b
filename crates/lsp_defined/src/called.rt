//! Where a protocol says what a call does.

ghost use Rattle.std.specs.Prelude.{◌≡◌, IfOk, filter, map};
ghost use Rattle.scr_tree.specs.Local.{tree_of};
ghost use Rattle.lsp_defined.specs.Called.{is_called, stand, places_called};
ghost use Rattle.lsp_defined.specs.inner.View.{act};

use crate::actions::{Action, actions_of};
use mg_text::{Memory, Place};
use scr_tree::Local;
use std::alloc::Global;

// Where those of the actions stand whose call has this name.
fn places_among(alloc: Global, actions: &[Action<'_>], call: &str) -> Result<Vec<Place>, Memory>
    ensures { IfOk result (λ v. v.items ≡ map stand (filter (is_called call.now) (map act actions.now))) }
{
    let mut places = Vec::new(alloc);
    for action in actions {
        if action.call.as_str() != call {
            continue;
        }
        places.push(action.place)?;
    }
    Ok(places)
}

/// Where the text of a protocol's file says what the call of this name does: the labels of messages, or the choices.
///
/// # Errors
/// `Memory` only.
pub(crate) fn places_called(alloc: Global, local: &Local, call: &str) -> Result<Vec<Place>, Memory>
    ensures { IfOk result (λ v. v.items ≡ places_called (tree_of local.now) call.now) }
{
    let actions = actions_of(alloc, local)?;
    places_among(alloc, actions.as_slice(), call)
}
