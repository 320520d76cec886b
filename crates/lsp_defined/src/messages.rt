//! The messages of a protocol, at their labels, and its choices elsewhere.

ghost use Rattle.std.specs.Prelude.{◌≡◌, ◌++◌, IfOk, OnOk, map};
ghost use Rattle.std.specs.List.{flat_map};
ghost use Rattle.scr_tree.specs.Local.{tree_of};
ghost use Rattle.lsp_defined.specs.Spots.{action_spots, message_spots};
ghost use Rattle.lsp_defined.specs.inner.View.{act};

use crate::actions::{Action, actions_of};
use crate::spots::Spot;
use mg_text::Memory;
use scr_tree::Local;
use std::alloc::Global;

// Appends the spot of an action.
fn put_action(spots: &mut Vec<Spot>, action: &Action<'_>) -> Result<(), Memory>
    ensures { OnOk result (spots.new.items ≡ spots.old.items ++ action_spots (act action.now)) }
{
    let method = action.call.copy()?;
    spots.push(Spot {
        place: action.place,
        state: None,
        method,
    })?;
    Ok(())
}

// The spots of actions.
fn spots_among(alloc: Global, actions: &[Action<'_>]) -> Result<Vec<Spot>, Memory>
    ensures { IfOk result (λ v. v.items ≡ flat_map action_spots (map act actions.now)) }
{
    let mut spots = Vec::new(alloc);
    for action in actions {
        put_action(&mut spots, action)?;
    }
    Ok(spots)
}

/// The messages of a protocol's file, and its choices elsewhere, in the order of the text.
///
/// # Errors
/// `Memory` only.
pub(crate) fn message_spots(alloc: Global, local: &Local) -> Result<Vec<Spot>, Memory>
    ensures { IfOk result (λ v. v.items ≡ message_spots (tree_of local.now)) }
{
    let actions = actions_of(alloc, local)?;
    spots_among(alloc, actions.as_slice())
}
