//! The first role whose class has no `main`.

ghost use Rattle.mg_exec.specs.inner.Mains.{IsFirstWithout};

use vm_model::Linked;
use vm_step::has_main;
use vm_world::RoleMain;

/// The number of the first role whose class isn't there, or has no `static void main(String[])`.
pub(crate) fn first_without(linked: &Linked, mains: &[RoleMain]) -> Option<usize>
    ensures { IsFirstWithout linked.now mains.now result }
{
    for number in 0..mains.len() {
        if !has_main(linked, mains[number].class.as_str()) {
            return Some(number);
        }
    }
    None
}
