//! Where a target leads on an answer.

ghost use Rattle.std.specs.Prelude.{◌≡◌, option_map};
ghost use Rattle.ts_tree.specs.Calls.{led_by};
ghost use Rattle.ts_tree.specs.View.{target_of};

use crate::{Target, To};

// Where the calls of a method lead that answer so.
#[tactic(auto, using(crate::proofs::Searches::searches))]
pub fn led_by(target: &Target, answer: Option<&str>) -> Option<To>
    ensures { result ≡ led_by (target_of target.now) (option_map (λ a. a.now) answer.entry) }
{
    match target {
        Target::One(to) => Some(*to),
        Target::ByAnswer(branches) => {
            let label = answer?;
            for branch in branches.as_slice() {
                if branch.label.as_str() == label {
                    return Some(branch.to);
                }
            }
            None
        }
    }
}
