//! The labels of loops.

ghost use Rattle.std.specs.Prelude.{◌≡◌, ◌++◌, [], ◌∷◌, IfOk, OnOk};
ghost use Rattle.std.specs.List.{list_any};
ghost use Rattle.std.specs.Str.{bytes_eq};
ghost use Rattle.mg_text.specs.JavaWords.{java_words};
ghost use Rattle.stm_client.specs.Client.{is_taken, label_for, label_in, with_loop, Loop};
ghost use Rattle.stm_client.specs.View.{loops_of};

use mg_text::{List, Memory, Text, is_java_word};
use std::alloc::Global;

/// A `rec` around: its name, and the label of its loop.
#[derive(Drop)]
pub struct Around {
    pub name: Text,
    pub label: Text,
}

/// The label of a `rec` of this name inside these: the name in small letters, with `_` behind it as
/// often as Java reserves it or a loop around has it.
pub fn label_for(alloc: Global, loops: &[Around], name: &Text) -> Result<Text, Memory>
    ensures { IfOk result (λ t. t ≡ label_for (loops_of loops.now) name.now) }
{
    let mut label = name.as_str().to_ascii_lowercase(alloc)?;
    for _step in 0..loops.len() + 1 {
        if !is_taken(loops, label.as_str()) {
            return Ok(Text::from_string(label));
        }
        label.push_str("_")?;
    }
    Ok(Text::from_string(label))
}

// Whether Java reserves the word, or a loop around has it.
fn is_taken(loops: &[Around], label: &str) -> bool
    ensures { result ≡ is_taken (loops_of loops.now) label.now }
{
    if is_reserved(label) {
        return true;
    }
    has_label(loops, label)
}

fn is_reserved(label: &str) -> bool
    ensures { result ≡ list_any (bytes_eq label.now) java_words }
{
    is_java_word(label)
}

fn has_label(loops: &[Around], label: &str) -> bool
    ensures { result ≡ list_any (λ (l : Loop). bytes_eq l.label label.now) (loops_of loops.now) }
{
    for around in loops {
        if around.label.as_str() == label {
            return true;
        }
    }
    false
}

/// The label of the `rec` of this name; an empty text where there is none.
pub fn label_in(alloc: Global, loops: &[Around], name: &Text) -> Result<Text, Memory>
    ensures { IfOk result (λ t. t ≡ label_in (loops_of loops.now) name.now) }
{
    for around in loops {
        if around.name == *name {
            return around.label.copy();
        }
    }
    Text::of(alloc, "")
}

/// The loops around, with one more.
#[tactic(auto, using(crate::proofs::Trees::name_steps))]
pub fn with_loop(
    alloc: Global,
    loops: &[Around],
    name: &Text,
    label: &Text,
) -> Result<List<Around>, Memory>
    requires { label.now ≡ label_for (loops_of loops.now) name.now }
    ensures { IfOk result (λ v. loops_of v.items ≡ with_loop (loops_of loops.now) name.now) }
{
    let mut inside = List::new(alloc);
    for around in loops {
        add_loop(&around.name, &around.label, &mut inside)?;
    }
    add_loop(name, label, &mut inside)?;
    Ok(inside)
}

// Appends a loop.
#[tactic(auto, using(crate::proofs::Trees::name_steps))]
fn add_loop(name: &Text, label: &Text, loops: &mut List<Around>) -> Result<(), Memory>
    ensures { OnOk result (loops_of loops.new.items ≡ loops_of loops.old.items
        ++ (record { name = name.now; label = label.now }) ∷ []) }
{
    let name = name.copy()?;
    let label = label.copy()?;
    loops.push(Around { name, label })
}
