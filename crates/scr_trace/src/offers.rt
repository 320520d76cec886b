//! The calls that a walk offers, in the order of the text.

ghost use Rattle.std.specs.Prelude.{◌≡◌, ◌≤◌, ℕ, IfOk, Some, None, length, map};
ghost use Rattle.scr_tree.specs.Local.{tree_of};
ghost use Rattle.scr_trace.specs.Walking.{calls_offered, methods_of};
ghost use Rattle.scr_trace.specs.inner.Offering.{AreApart, SamePeer, edge_calls, labels_in, messages_in};
ghost use Rattle.scr_trace.specs.inner.View.{cell_of, drafts_of, edge_of, edges_of, work_of};

use crate::arrow::{Arrow, Exits};
use crate::call::Offer;
use crate::laying::Laying;
use crate::names::label_call_name;
use mg_text::{List, Memory, Text};
use scr_tree::{Local, call_name};
use std::alloc::Global;

/// What a state offers: the method of each message, or one for all looks at a choice.
pub fn offers_of(
    alloc: Global,
    local: &Local,
    laid: &Laying<'_>,
    exits: &Exits<'_>,
) -> Result<List<Offer>, Memory>
    ensures calls { IfOk result (λ offers. ((c : ℕ) → exits.now.number ≡ Some c → SamePeer exits.now.arrows.items) →
        calls_offered offers.items ≡ edge_calls (tree_of local.now).me (edges_of (work_of laid.now) (cell_of exits.now))) }
    ensures apart { IfOk result (λ offers. AreApart exits.now.number (drafts_of exits.now.arrows.items) offers.items) }
{
    let arrows = exits.arrows.as_slice();
    match exits.number {
        None => message_offers(alloc, local, laid, arrows),
        Some(behind) => label_offers(alloc, local, laid, behind, arrows),
    }
}

// The methods of messages, of which the last of the text stands first.
#[tactic(auto, using(crate::proofs::Offering::message_steps))]
fn message_offers(
    alloc: Global,
    local: &Local,
    laid: &Laying<'_>,
    arrows: &[Arrow<'_>],
) -> Result<List<Offer>, Memory>
    ensures calls { IfOk result (λ offers. calls_offered offers.items ≡ edge_calls (tree_of local.now).me
        (map (edge_of (work_of laid.now) None) (drafts_of arrows.now))) }
    ensures methods { IfOk result (λ offers. methods_of offers.items ≡ messages_in (drafts_of arrows.now)) }
{
    let mut offers = List::new(alloc);
    let mut i = arrows.len();
    while i > 0 {
        i -= 1;
        let arrow = arrows[i];
        let method = call_name(alloc, arrow.message)?;
        let answers = List::new(alloc);
        offers.push(Offer { method, answers })?;
    }
    Ok(offers)
}

// The method of the looks at a choice elsewhere, if it has branches.
#[tactic(auto, using(crate::proofs::Offering::looks_once))]
fn label_offers(
    alloc: Global,
    local: &Local,
    laid: &Laying<'_>,
    behind: u32,
    arrows: &[Arrow<'_>],
) -> Result<List<Offer>, Memory>
    ensures calls { IfOk result (λ offers. SamePeer arrows.now → calls_offered offers.items ≡ edge_calls (tree_of local.now).me
        (map (edge_of (work_of laid.now) (Some behind)) (drafts_of arrows.now))) }
    ensures one { IfOk result (λ offers. length offers.items ≤ 1) }
{
    let count = arrows.len();
    if count == 0 {
        return Ok(List::new(alloc));
    }
    let first = arrows[count - 1];
    let message = first.message;
    let number = laid.choice_number(behind);
    let method = label_call_name(alloc, local, number, message.peer.as_str())?;
    let answers = labels_of(alloc, arrows)?;
    let mut offers = List::new(alloc);
    offers.push(Offer { method, answers })?;
    Ok(offers)
}

// The labels of branches, of which the last of the text stands first.
#[tactic(auto, using(crate::proofs::Offering::label_steps))]
fn labels_of(alloc: Global, arrows: &[Arrow<'_>]) -> Result<List<Text>, Memory>
    ensures { IfOk result (λ labels. labels.items ≡ labels_in (drafts_of arrows.now)) }
{
    let mut labels = List::new(alloc);
    let mut i = arrows.len();
    while i > 0 {
        i -= 1;
        let arrow = arrows[i];
        let message = arrow.message;
        labels.push(message.label.copy()?)?;
    }
    Ok(labels)
}
