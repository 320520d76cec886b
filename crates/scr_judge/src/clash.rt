//! A call's name says which action it is.

ghost use Rattle.std.specs.Prelude.{◌≡◌, ◌↔◌, [], IfOk, IsTrue, map, option_map};
ghost use Rattle.mg_read.specs.First.{Judged, with_earlier};
ghost use Rattle.scr_tree.specs.Meaning.{message_of};
ghost use Rattle.mg_read.specs.Culprit.{culprit};
ghost use Rattle.scr_tree.specs.Actions.{NameClash, all_actions};
ghost use Rattle.scr_tree.specs.Written.{parts_in, me_in, body_of, written_of};
ghost use Rattle.scr_judge.specs.inner.Listed.{Clash};
ghost use Rattle.scr_judge.specs.inner.View.{deed_of, culprit_of, named_of, call_of, does, clashing};

use crate::actions::{Action, Deed, collect_all, collect_parts};
use crate::culprit::{Culprit, Named, with_name};
use mg_text::Memory;
use scr_tree::{Message, Written};
use std::alloc::Global;
use std::collections::HashMap;

/// The first action whose call name an earlier action has that is another one.
pub fn find_name_clash(alloc: Global, written: &Written) -> Result<Option<Named>, Memory>
    ensures { IfOk result (λ r. Judged NameClash (with_earlier (all_actions me_in body_of 1 (parts_in (written_of 0 written.now))))
        (named_of r)) }
{
    let mut actions = Vec::new(alloc);
    let first = &written.first;
    let me = &first.me.name;
    let next = collect_all(alloc, me, &mut actions, 1, first.body.as_slice())?;
    collect_parts(alloc, &mut actions, next, written.others.as_slice())?;
    let clash = first_clash(alloc, actions.as_slice())?;
    with_name(alloc, clash)
}

fn first_clash<'a>(alloc: Global, actions: &'a [Action<'_>]) -> Result<Option<Culprit<'a>>, Memory>
    ensures { IfOk result (λ r. Judged (Clash call_of does clashing) (with_earlier actions.now) (culprit_of r)) }
{
    // Of each call name the index of the first action that has it.
    let mut firsts: HashMap<String, usize> = HashMap::new(alloc);
    for (i, action) in actions.iter().enumerate() {
        let name = action.call.as_str();
        match firsts.get(name) {
            Some(first) => {
                if !is_same_deed(&actions[*first], action) {
                    return Ok(Some(Culprit {
                        place: action.place,
                        name,
                    }));
                }
            }
            None => {
                let key = String::from_str(alloc, name)?;
                firsts.insert(key, i)?;
            }
        }
    }
    Ok(None)
}

// Whether two calls do the same.
fn is_same_deed(a: &Action<'_>, b: &Action<'_>) -> bool
    ensures { IsTrue result ↔ (deed_of a.now.deed ≡ deed_of b.now.deed) }
{
    match a.deed {
        Deed::Moves(one) => match b.deed {
            Deed::Moves(other) => is_same_message(one, other),
            Deed::Looks(_) => false,
        },
        Deed::Looks(one) => match b.deed {
            Deed::Moves(_) => false,
            Deed::Looks(other) => one == other,
        },
    }
}

// Whether two messages differ in their places at most.
fn is_same_message(a: &Message, b: &Message) -> bool
    ensures { IsTrue result ↔ (message_of a.now ≡ message_of b.now) }
{
    a.direction == b.direction && a.payload == b.payload && a.label == b.label && a.peer == b.peer
}
