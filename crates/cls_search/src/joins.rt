//! The places at which ways may join: the first one, and those that jumps lead to.

ghost use Rattle.std.specs.Prelude.{◌≡◌, ◌++◌, ℕ, Some, map, option_to_list, IfOk};
ghost use Rattle.vm_model.specs.Actions as model;
ghost use Rattle.vm_model.specs.View.{instr_of};
ghost use Rattle.vm_actions.specs.Table.{action_of};
ghost use Rattle.cls_verify.specs.Blocks.{falls, jumps};
ghost use Rattle.cls_search.specs.Marked.{KeepsMarks, IsMarked, AllMarked, AreJoins};

use mg_text::Memory;
use std::alloc::Global;
use vm_actions::{Action, Plain, action_of};
use vm_model::LinkedInstr;

/// Where an instruction jumps to, if to one place, and to which further ones.
#[derive(Clone, Copy)]
pub(crate) struct Jumps<'a> {
    pub(crate) target: Option<u32>,
    pub(crate) further: &'a [u32],
    /// Whether it also goes on behind itself.
    pub(crate) falls: bool,
}

/// Where an action leads to.
pub(crate) fn ways_of<'a>(action: Action<'a>) -> Jumps<'a>
    ensures falls { result.falls ≡ falls (action_of action.entry) }
    ensures jumps { option_to_list result.target ++ result.further.now ≡ jumps (action_of action.entry) }
{
    let none: &'a [u32] = &[];
    match action {
        Action::Plain(Plain::IfZero(_, target))
        | Action::Plain(Plain::IfBoth(_, target))
        | Action::Plain(Plain::IfNull(_, target)) => Jumps {
            target: Some(target),
            further: none,
            falls: true,
        },
        Action::Plain(Plain::Go(target)) => Jumps {
            target: Some(target),
            further: none,
            falls: false,
        },
        Action::Plain(
            Plain::Switch {
                default,
                targets,
                ..
            },
        ) => Jumps {
            target: Some(default),
            further: targets,
            falls: false,
        },
        Action::Return(_) => Jumps {
            target: None,
            further: none,
            falls: false,
        },
        _ => Jumps {
            target: None,
            further: none,
            falls: true,
        },
    }
}

/// Marks a place, where there is such a place.
fn mark(marks: &mut [bool], place: usize)
    ensures kept { KeepsMarks marks.old marks.new }
    ensures marked { IsMarked marks.new place }
{
    if place >= marks.len() {
        return;
    }
    marks[place] = true;
}

/// Marks these places.
fn mark_all(marks: &mut [bool], places: &[u32])
    ensures kept { KeepsMarks marks.old marks.new }
    ensures marked { AllMarked marks.new places.now }
{
    for place in places {
        mark(marks, *place as usize);
    }
}

/// Marks where an instruction jumps to.
fn mark_jumps(marks: &mut [bool], instr: &LinkedInstr)
    ensures kept { KeepsMarks marks.old marks.new }
    ensures marked { (a : model.Action) → model.action (instr_of instr.now).op (instr_of instr.now).args ≡ Some a →
        AllMarked marks.new (jumps a) }
{
    let Some(action) = action_of(instr) else {
        return;
    };
    let jumps = ways_of(action);
    let Some(target) = jumps.target else {
        mark_all(marks, jumps.further);
        return;
    };
    mark(marks, target as usize);
    mark_all(marks, jumps.further);
}

/// By places: whether ways may join there.
pub(crate) fn join_marks(alloc: Global, code: &[LinkedInstr]) -> Result<Vec<bool>, Memory>
    ensures { IfOk result (λ v. AreJoins (map instr_of code.now) v.items) }
{
    let mut marks = vec![in alloc; false; code.len()]?;
    mark(marks.as_mut_slice(), 0);
    for instr in code {
        mark_jumps(marks.as_mut_slice(), instr);
    }
    Ok(marks)
}
