//! Whether two local protocols say the same, places aside.
#![tactic(auto)]

ghost use Rattle.std.specs.Prelude.{◌↔◌, IsTrue};
ghost use Rattle.scr_tree.specs.View.{statements};
ghost use Rattle.scr_back.specs.Same.{AreSame};

mod same;

use crate::same::same_all;
use scr_tree::Statement;

/// Whether two lists of statements are the same, places aside: one by one of one kind, with the same
/// names, messages and branches, in the same order.
pub fn are_same(some: &[Statement], others: &[Statement]) -> bool
    ensures { IsTrue result ↔ AreSame (statements some.now) (statements others.now) }
{
    same_all(some, others)
}
