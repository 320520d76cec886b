//! Switches: their enums, and the labels of their groups.
//! Contracts see enums and labels as trees.

ghost use Rattle.std.specs.Prelude.{◌≡◌};
ghost use Rattle.jv_tree.specs.View.{enum_of};
ghost use Rattle.jv_meaning.specs.Program.{constant_position};
ghost use Rattle.jv_resolve_law.specs.Statements.{labels_at, enum_given};
ghost use Rattle.jv_resolve.specs.inner.Gives.{Gives};
ghost use Rattle.jv_resolve.specs.inner.Labels.{label_at};
ghost use Rattle.jv_resolve.specs.inner.Seen.{tables_seen, given_seen};

use crate::given::{Given, Unresolved};
use crate::lookup::enum_at;
use crate::scope::Scope;
use jv_core::CoreType;
use jv_types::EnumEntry;
use mg_text::{List, Text};
use std::alloc::Global;

/// The labels of a group, as positions of constants.
pub(crate) fn resolve_labels(
    alloc: Global,
    of: &EnumEntry<'_>,
    labels: &[Option<Text>],
) -> Result<List<Option<u32>>, Unresolved>
    ensures { Gives (λ l. l.items) result (labels_at (enum_of of.now.of.now) labels.now) }
{
    let mut resolved = List::new(alloc);
    for label in labels {
        let label = resolve_label(of, label)?;
        resolved.push(label)?;
    }
    Ok(resolved)
}

// A label, as the position of a constant. `default` has none.
fn resolve_label(of: &EnumEntry<'_>, label: &Option<Text>) -> Result<Option<u32>, Unresolved>
    ensures { Gives (λ l. l) result (label_at (enum_of of.now.of.now) label.now) }
{
    match label {
        None => Ok(None),
        Some(name) => match of.constant_place(name.as_str()) {
            None => Err(Unresolved::Fault),
            Some(position) => Ok(Some(position)),
        },
    }
}

/// The enum of the value of a switch.
pub(crate) fn enum_of<'s, 'a>(
    scope: &Scope<'s, 'a>,
    given: Given,
) -> Result<&'s EnumEntry<'a>, Unresolved>
    ensures { Gives (λ e. enum_of e.now.of.now) result (enum_given (tables_seen scope.now.table.now) (given_seen given)) }
{
    match given {
        Given::Of(CoreType::Enum(number)) => match enum_at(scope.table, number) {
            Some(entry) => Ok(entry),
            None => Err(Unresolved::Fault),
        },
        Given::Null => Err(Unresolved::Fault),
        Given::Of(CoreType::Void | CoreType::Int | CoreType::Boolean) => Err(Unresolved::Fault),
        Given::Of(CoreType::Text | CoreType::Object(_)) => Err(Unresolved::Fault),
    }
}
