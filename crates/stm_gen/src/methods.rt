//! The methods of a state: one for each message, or one for all looks at a choice.

ghost use Rattle.std.specs.Prelude.{◌≡◌, IfOk, Some, None, map};
ghost use Rattle.scr_tree.specs.CallNames.{message_call};
ghost use Rattle.ts_tree.specs.Typestate.{One};
ghost use Rattle.scr_tree.specs.Local.{tree_of};
ghost use Rattle.scr_tree.specs.Meaning.{message_of};
ghost use Rattle.scr_trace.specs.inner.View.{cell_of, edges_of, edge_of, drafts_of, standing_of, work_of};
ghost use Rattle.ts_tree.specs.View.{method_of as kept_method};
ghost use Rattle.stm_gen.specs.Laid.{to_of, result_of, params_of, methods_of, branches_of, choice_enum, label_method};

use crate::types::{params_of, result_of};
use mg_text::{List, Memory, Text};
use scr_trace::{Arrow, Exits, Laying, Standing, label_call_name};
use scr_tree::{Local, Message, call_name};
use std::alloc::Global;
use ts_tree::{Branch, Method, Target, To, TypeName};

/// The methods of a state that offers this, in the order of the text.
pub fn methods_of(
    alloc: Global,
    local: &Local,
    laid: &Laying<'_>,
    exits: &Exits<'_>,
) -> Result<List<Method>, Memory>
    ensures { IfOk result (λ ms. map kept_method ms.items ≡ methods_of (tree_of local.now).me
        (edges_of (work_of laid.now) (cell_of exits.now))) }
{
    let arrows = exits.arrows.as_slice();
    match exits.number {
        None => message_methods(alloc, local, laid, arrows),
        Some(behind) => label_methods(alloc, local, laid, behind, arrows),
    }
}

// The methods of messages, of which the last of the text stands first.
#[tactic(auto, using(crate::proofs::Making::method_steps))]
fn message_methods(
    alloc: Global,
    local: &Local,
    laid: &Laying<'_>,
    arrows: &[Arrow<'_>],
) -> Result<List<Method>, Memory>
    ensures { IfOk result (λ ms. map kept_method ms.items ≡ methods_of (tree_of local.now).me
        (map (edge_of (work_of laid.now) None) (drafts_of arrows.now))) }
{
    let mut methods = List::new(alloc);
    let mut i = arrows.len();
    while i > 0 {
        i -= 1;
        let arrow = arrows[i];
        let to = to_of(laid.standing(arrow.to));
        let method = method_of(alloc, arrow.message, to)?;
        methods.push(method)?;
    }
    Ok(methods)
}

// The method of the looks at a choice elsewhere, if it has branches.
fn label_methods(
    alloc: Global,
    local: &Local,
    laid: &Laying<'_>,
    behind: u32,
    arrows: &[Arrow<'_>],
) -> Result<List<Method>, Memory>
    ensures { IfOk result (λ ms. map kept_method ms.items ≡ methods_of (tree_of local.now).me
        (map (edge_of (work_of laid.now) (Some behind)) (drafts_of arrows.now))) }
{
    let mut methods = List::new(alloc);
    if let Some(first) = arrows.last() {
        let number = laid.choice_number(behind);
        let branches = branches_of(alloc, laid, behind, arrows)?;
        let method = label_method(alloc, local, number, first.message.peer.as_str(), branches)?;
        methods.push(method)?;
    }
    Ok(methods)
}

// The labels of looks, of which the last of the text stands first, and where each leads.
#[tactic(auto, using(crate::proofs::Making::branch_steps))]
fn branches_of(
    alloc: Global,
    laid: &Laying<'_>,
    behind: u32,
    arrows: &[Arrow<'_>],
) -> Result<List<Branch>, Memory>
    ensures { IfOk result (λ bs. bs.items ≡ branches_of (map (edge_of (work_of laid.now) (Some behind)) (drafts_of arrows.now))) }
{
    let mut branches = List::new(alloc);
    let mut i = arrows.len();
    while i > 0 {
        i -= 1;
        let arrow = arrows[i];
        let message = arrow.message;
        let to = to_of(laid.standing(arrow.to));
        let label = message.label.copy()?;
        branches.push(Branch { label, to })?;
    }
    Ok(branches)
}

// The method that answers which label a peer has sent.
fn label_method(
    alloc: Global,
    local: &Local,
    number: u32,
    peer: &str,
    branches: List<Branch>,
) -> Result<Method, Memory>
    ensures { IfOk result (λ m. kept_method m ≡ label_method (tree_of local.now).me number peer.now branches.items) }
{
    let name = label_call_name(alloc, local, number, peer)?;
    let answers = choice_enum(alloc, local.me().as_str(), number)?;
    Ok(Method {
        result: TypeName::Named(answers),
        name,
        params: List::new(alloc),
        target: Target::ByAnswer(branches),
    })
}

/// The name of the enum whose constants are the labels of a choice.
pub fn choice_enum(alloc: Global, me: &str, number: u32) -> Result<Text, Memory>
    ensures { IfOk result (λ t. t ≡ choice_enum me.now number) }
{
    let name = format!(in alloc; "{me}Choice{number}")?;
    Ok(Text::from_string(name))
}

// The method of a message, which leads there.
fn method_of(alloc: Global, message: &Message, to: To) -> Result<Method, Memory>
    ensures { IfOk result (λ m. kept_method m ≡ record {
      result = result_of (message_of message.now);
      name =
          message_call (message_of message.now);
      params = params_of (message_of message.now);
      target = One to;
    }) }
{
    let params = params_of(alloc, message)?;
    let name = call_name(alloc, message)?;
    Ok(Method {
        result: result_of(message),
        name,
        params,
        target: Target::One(to),
    })
}

// The state of this number, or the end.
fn to_of(standing: Standing) -> To
    ensures { result ≡ to_of standing }
{
    match standing {
        Standing::State(number) => To::State(number),
        Standing::End => To::End,
    }
}
