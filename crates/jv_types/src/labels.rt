//! Classes whose methods answer with other labels than their typestates. Each typestate is judged
//! once, by its own results, which its classes have too once no signature differs.

ghost use Rattle.std.specs.Prelude.{◌≡◌, [], IfOk, None, option_map};
ghost use Rattle.std.specs.List.{list_any};
ghost use Rattle.jv_rules.specs.inner.Deciding.{first_by};
ghost use Rattle.jv_types.specs.Tables.{program_in};
ghost use Rattle.jv_types.specs.declared.demands.Demand.TheVariants as demands;
ghost use Rattle.jv_types.specs.inner.Blaming.{blamed_of};
ghost use Rattle.jv_types.specs.inner.Declaring.{broken_in_class};
ghost use Rattle.jv_types.specs.inner.Kept.{typestate_in};
ghost use Rattle.jv_types.specs.inner.Offering.{offers_seen, labels_differ, mislabelled};
ghost use Rattle.jv_types.specs.inner.Tabled.{class_in, IsEntryOf, AreEntriesOf};

use crate::blame::{Blamed, note};
use crate::demands::{Demand, broken_by, other_labels};
use crate::entry::ClassEntry;
use crate::name_table::Table;
use mg_text::{Memory, Names};
use std::alloc::Global;
use ts_tree::Method;

// Whether a method answers with other labels than the constants of its own result.
fn some_differ(alloc: Global, table: &Table<'_>, offers: &[&Method]) -> Result<bool, Memory>
    ensures { IfOk result (λ b. b ≡ list_any (labels_differ (program_in table.now)) (offers_seen offers.now)) }
{
    for offer in offers {
        if other_labels(alloc, table, &offer.result, &offer.target)? {
            return Ok(true);
        }
    }
    Ok(false)
}

// The names of the typestates that have such a method.
fn mislabelled(alloc: Global, table: &Table<'_>) -> Result<Names, Memory>
    ensures { IfOk result (λ n. n ≡ mislabelled (program_in table.now) [] (program_in table.now).typestates) }
{
    let mut met = Names::new(alloc);
    for protocol in table.protocols.as_slice() {
        let differ = some_differ(alloc, table, protocol.offers.as_slice())?;
        if !differ {
            continue;
        }
        let typestate = protocol.of;
        note(&mut met, typestate.name.as_str())?;
    }
    Ok(met)
}

// The first instance method of a class that answers with other labels than its typestate.
fn other_answers<'a>(
    alloc: Global,
    table: &Table<'a>,
    wrong: &Names,
    entry: &ClassEntry<'a>,
) -> Result<Option<Blamed<'a>>, Memory>
    requires entry { IsEntryOf (program_in table.now) entry.now }
    requires wrong { wrong.now ≡ mislabelled (program_in table.now) [] (program_in table.now).typestates }
    requires alike { broken_in_class (program_in table.now) demands.OfSignature (typestate_in entry.now) (class_in entry.now) ≡ None }
    ensures { IfOk result (λ o. option_map blamed_of o ≡ broken_in_class (program_in table.now) demands.OfLabels (typestate_in entry.now)
        (class_in entry.now)) }
{
    match table.protocol_of(entry) {
        Some(protocol) => {
            let typestate = protocol.of;
            if wrong.find(typestate.name.as_str()).is_some() {
                let offers = protocol.offers.as_slice();
                return broken_by(alloc, table, Demand::OfLabels, entry, offers);
            }
            Ok(None)
        }
        None => Ok(None),
    }
}

/// The first instance method that answers with other labels than the typestate of its class, where
/// no signature differs.
pub(crate) fn labels_differ<'a>(
    alloc: Global,
    table: &Table<'a>,
    entries: &[ClassEntry<'a>],
) -> Result<Option<Blamed<'a>>, Memory>
    requires entries { AreEntriesOf (program_in table.now) entries.now }
    requires alike { first_by (λ e. broken_in_class (program_in table.now) demands.OfSignature (typestate_in e) (class_in e)) entries.now
        ≡ None }
    ensures { IfOk result (λ o. option_map blamed_of o
        ≡ first_by (λ e. broken_in_class (program_in table.now) demands.OfLabels (typestate_in e) (class_in e)) entries.now) }
{
    let wrong = mislabelled(alloc, table)?;
    for item in entries {
        let found = other_answers(alloc, table, &wrong, item)?;
        if found.is_some() {
            return Ok(found);
        }
    }
    Ok(None)
}
