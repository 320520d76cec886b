//! The lines of `show`, one for each call of a protocol method.
//! Calls stand by file and place, whether a context reaches them or not.

ghost use Rattle.std.specs.Prelude.{◌≡◌, ◌++◌, map, IfOk, OnOk, string_bytes};
ghost use Rattle.std.specs.List.{flat_map};
ghost use Rattle.indexmap.specs.IndexMap.{get};
ghost use Rattle.jv_core.specs.View.{field_of, method_of};
ghost use Rattle.use_flow.specs.View.{AreFor};
ghost use Rattle.mg_shown.specs.Shown.{IsShown};
ghost use Rattle.mg_shown.specs.inner.Lines.{field_text, variable_text, line_of, line_at};
ghost use Rattle.mg_shown.specs.inner.Seeing.{at_place};

use crate::listed::listed;
use crate::seen::{PlaceKey, key_of, seen_of};
use indexmap::IndexMap;
use jv_core::{Core, CoreField, CoreMethod, Var, name_text};
use mg_delivery::lines::push_spot;
use mg_refusal::Spot;
use mg_sets::StateSet;
use mg_text::{Memory, Text};
use std::alloc::Global;
use use_check::put_set;
use use_elements::empty_set;
use use_flow::{Tables, class_at, led, method_at, typestate_of};
use use_sights::Site;
use use_verdict::find_usages;

// What is shown: a program with the names of its files, and its tables.
#[derive(Drop)]
struct Shower<'a> {
    names: &'a [Text],
    core: &'a Core,
    tables: &'a Tables,
}

// The name of a field.
#[tactic(auto, using(use_flow::proofs::Scenes::scenes))]
fn field_text<'a>(core: &'a Core, fields: &[CoreField], field: u32) -> &'a str
    ensures { result.now ≡ field_text core.now (map field_of fields.now) field }
{
    match fields.get(field as usize) {
        Some(field) => name_text(core, field.name),
        None => "",
    }
}

/// The name of the variable that a call is made on, in this method.
#[tactic(auto, using(use_flow::proofs::Scenes::scenes))]
pub fn variable_text<'a>(core: &'a Core, site: Site, within: &CoreMethod) -> &'a str
    ensures { result.now ≡ variable_text core.now site (method_of within.now) }
{
    match site.variable {
        Var::Slot(slot) => match within.slots.as_slice().get(slot as usize) {
            Some(slot) => name_text(core, slot.name),
            None => "",
        },
        Var::Field(field) => match class_at(core, within.class) {
            Some(class) => field_text(core, class.fields.as_slice(), field),
            None => "",
        },
    }
}

impl<'a> Shower<'a> {
    // Appends the line of a call that is made in this method, of that one, on a variable that is this.
    fn put_call(
        &self,
        alloc: Global,
        out: &mut String,
        site: Site,
        within: &CoreMethod,
        called: &CoreMethod,
        before: &StateSet,
    ) -> Result<(), Memory>
        requires { AreFor self.now.core.now self.now.tables.now }
        ensures { OnOk result (string_bytes out.new ≡ string_bytes out.old ++ line_of self.now.names.now self.now.core.now site
            (method_of within.now) (method_of called.now) before.now) }
    {
        let after = led(alloc, self.core, self.tables, site.method, called, before)?;
        let typestate = typestate_of(self.core, called.class);
        push_spot(out, self.names, Spot::Text(site.place))?;
        out.push_str(": ")?;
        out.push_str(variable_text(self.core, site, within))?;
        out.push_str(".")?;
        out.push_str(name_text(self.core, called.name))?;
        put_set(out, typestate, before)?;
        out.push_str(" ->")?;
        put_set(out, typestate, &after)?;
        out.push_str("\n")?;
        Ok(())
    }

    // Appends the line of a call.
    #[tactic(auto, using(use_flow::proofs::Scenes::scenes))]
    fn put_site(
        &self,
        alloc: Global,
        out: &mut String,
        site: Site,
        before: &StateSet,
    ) -> Result<(), Memory>
        requires { AreFor self.now.core.now self.now.tables.now }
        ensures { OnOk result (string_bytes out.new ≡ string_bytes out.old ++ line_at self.now.names.now self.now.core.now site before.now) }
    {
        let Some(within) = method_at(self.core, site.within) else {
            return Ok(());
        };
        let Some(called) = method_at(self.core, site.method) else {
            return Ok(());
        };
        self.put_call(alloc, out, site, within, called, before)
    }

    // Appends the line of a call, by what is kept of its place.
    fn put_seen(
        &self,
        alloc: Global,
        out: &mut String,
        site: Site,
        seen: &IndexMap<PlaceKey, StateSet>,
    ) -> Result<(), Memory>
        requires { AreFor self.now.core.now self.now.tables.now }
        ensures { OnOk result (string_bytes out.new ≡ string_bytes out.old ++ line_at self.now.names.now self.now.core.now site
            (at_place (get ⟦<PlaceKey as PartialEq>⟧.eq seen.now) site.place)) }
    {
        match seen.get(&key_of(site.place)) {
            Some(before) => self.put_site(alloc, out, site, before),
            None => {
                let nothing = empty_set(alloc, 0)?;
                self.put_site(alloc, out, site, &nothing)
            }
        }
    }

    // Appends the lines of calls.
    fn put_sites(
        &self,
        alloc: Global,
        out: &mut String,
        sites: &[Site],
        seen: &IndexMap<PlaceKey, StateSet>,
    ) -> Result<(), Memory>
        requires { AreFor self.now.core.now self.now.tables.now }
        ensures { OnOk result (string_bytes out.new ≡ string_bytes out.old ++ flat_map (λ s. line_at self.now.names.now self.now.core.now s
            (at_place (get ⟦<PlaceKey as PartialEq>⟧.eq seen.now) s.place)) sites.now) }
    {
        for site in sites {
            self.put_seen(alloc, out, *site, seen)?;
        }
        Ok(())
    }
}

/// What is put for a program of files of these names: a line for each call of a protocol method, with what its
/// variable may be there, and where the call leads.
///
/// # Errors
/// `Memory` only.
pub fn show(alloc: Global, names: &[Text], core: &Core) -> Result<Text, Memory>
    ensures { IfOk result (λ t. IsShown names.now core.now t) }
{
    let met = find_usages(alloc, core)?;
    let sites = listed(alloc, core)?;
    let seen = seen_of(alloc, met.sights.as_slice())?;
    let shower = Shower {
        names,
        core,
        tables: &met.tables,
    };
    let mut out = String::new(alloc);
    shower.put_sites(alloc, &mut out, sites.as_slice(), &seen)?;
    Ok(Text::from_string(out))
}
