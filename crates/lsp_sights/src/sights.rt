//! What is said of calls, by the tables of a program and what is seen at each place.

ghost use Rattle.std.specs.Prelude.{◌≡◌, ◌++◌, IfOk, OnOk, string_bytes};
ghost use Rattle.indexmap.specs.IndexMap.{get};
ghost use Rattle.jv_core.specs.View.{method_of};
ghost use Rattle.use_flow.specs.View.{AreFor};
ghost use Rattle.mg_shown.specs.inner.Seeing.{at_place};
ghost use Rattle.lsp_sights.specs.Answers.{AreCalls};
ghost use Rattle.lsp_sights.specs.Texts.{path_text, steps_text, hint_of, hover_of, hint_at, hover_at};

use crate::located::{Located, calls_in};
use crate::told::put_states;
use indexmap::IndexMap;
use jv_core::{Core, CoreMethod, name_text};
use mg_sets::StateSet;
use mg_shown::listed::listed;
use mg_shown::seen::{PlaceKey, key_of};
use mg_shown::variable_text;
use mg_text::{Memory, Text};
use std::alloc::Global;
use use_check::put_set;
use use_elements::{copy_set, empty_set};
use use_flow::{Tables, led, method_at, typestate_of};
use use_sights::Site;

/// The calls of a program that stand in this file, as they are listed, and where their paths stand in its text.
///
/// # Errors
/// `Memory` only.
pub fn calls_of(alloc: Global, core: &Core, text: &str, file: u32) -> Result<Vec<Located>, Memory>
    ensures { IfOk result (λ v. AreCalls core.now text.now file v.items) }
{
    let sites = listed(alloc, core)?;
    calls_in(alloc, text, file, sites.as_slice())
}

/// What is said of the calls of a program is told by its tables, and by what is seen at each place.
#[derive(Drop)]
pub(crate) struct Sights<'a> {
    pub core: &'a Core,
    pub tables: &'a Tables,
    pub seen: &'a IndexMap<PlaceKey, StateSet>,
}

impl<'a> Sights<'a> {
    // What the variable of a call may be there.
    fn before(&self, alloc: Global, site: Site) -> Result<StateSet, Memory>
        ensures { IfOk result (λ s. s ≡ at_place (get ⟦<PlaceKey as PartialEq>⟧.eq self.now.seen.now) site.place) }
    {
        match self.seen.get(&key_of(site.place)) {
            Some(set) => copy_set(set),
            None => empty_set(alloc, 0),
        }
    }

    // Appends `X.M`: the variable of a call in this method of that one, and the method's name.
    fn put_name(
        &self,
        out: &mut String,
        site: Site,
        within: &CoreMethod,
        called: &CoreMethod,
    ) -> Result<(), Memory>
        ensures { OnOk result (string_bytes out.new ≡ string_bytes out.old
            ++ path_text self.now.core.now site (method_of within.now) (method_of called.now)) }
    {
        out.push_str(variable_text(self.core, site, within))?;
        out.push_str(".")?;
        out.push_str(name_text(self.core, called.name))?;
        Ok(())
    }

    // Appends ` BEFORE -> AFTER` of a call of the method of this number, and the line's end.
    fn put_steps(
        &self,
        alloc: Global,
        out: &mut String,
        number: u32,
        called: &CoreMethod,
        before: &StateSet,
    ) -> Result<(), Memory>
        requires { AreFor self.now.core.now self.now.tables.now }
        ensures { OnOk result (string_bytes out.new ≡ string_bytes out.old
            ++ steps_text self.now.core.now (method_of called.now) before.now) }
    {
        let after = led(alloc, self.core, self.tables, number, called, before)?;
        let typestate = typestate_of(self.core, called.class);
        put_set(out, typestate, before)?;
        out.push_str(" ->")?;
        put_set(out, typestate, &after)?;
        out.push_str("\n")?;
        Ok(())
    }

    // What is said over a call in this method of that.
    fn hover_of(
        &self,
        alloc: Global,
        site: Site,
        within: &CoreMethod,
        called: &CoreMethod,
        before: &StateSet,
    ) -> Result<Text, Memory>
        requires { AreFor self.now.core.now self.now.tables.now }
        ensures { IfOk result (λ t. t ≡ hover_of self.now.core.now site (method_of within.now) (method_of called.now) before.now) }
    {
        let mut out = String::new(alloc);
        self.put_name(&mut out, site, within, called)?;
        self.put_steps(alloc, &mut out, site.method, called, before)?;
        put_states(&mut out, typestate_of(self.core, called.class), before)?;
        Ok(Text::from_string(out))
    }

    /// What is said over a call.
    ///
    /// # Errors
    /// `Memory` only.
    #[tactic(auto, using(use_flow::proofs::Scenes::scenes))]
    pub(crate) fn hover(&self, alloc: Global, site: Site) -> Result<Text, Memory>
        requires { AreFor self.now.core.now self.now.tables.now }
        ensures { IfOk result (λ t. t ≡ hover_at self.now.core.now site
            (at_place (get ⟦<PlaceKey as PartialEq>⟧.eq self.now.seen.now) site.place)) }
    {
        let before = self.before(alloc, site)?;
        let Some(within) = method_at(self.core, site.within) else {
            return Ok(Text::from_string(String::new(alloc)));
        };
        let Some(called) = method_at(self.core, site.method) else {
            return Ok(Text::from_string(String::new(alloc)));
        };
        self.hover_of(alloc, site, within, called, &before)
    }

    // What is said behind a call of this method.
    fn hint_of(
        &self,
        alloc: Global,
        site: Site,
        called: &CoreMethod,
        before: &StateSet,
    ) -> Result<Text, Memory>
        requires { AreFor self.now.core.now self.now.tables.now }
        ensures { IfOk result (λ t. t ≡ hint_of self.now.core.now (method_of called.now) before.now) }
    {
        let after = led(alloc, self.core, self.tables, site.method, called, before)?;
        let mut out = String::new(alloc);
        out.push_str(":")?;
        put_set(&mut out, typestate_of(self.core, called.class), &after)?;
        Ok(Text::from_string(out))
    }

    /// What is said behind a call.
    ///
    /// # Errors
    /// `Memory` only.
    #[tactic(auto, using(use_flow::proofs::Scenes::scenes))]
    pub(crate) fn hint(&self, alloc: Global, site: Site) -> Result<Text, Memory>
        requires { AreFor self.now.core.now self.now.tables.now }
        ensures { IfOk result (λ t. t ≡ hint_at self.now.core.now site
            (at_place (get ⟦<PlaceKey as PartialEq>⟧.eq self.now.seen.now) site.place)) }
    {
        let before = self.before(alloc, site)?;
        match method_at(self.core, site.method) {
            Some(called) => self.hint_of(alloc, site, called, &before),
            None => Ok(Text::from_string(String::new(alloc))),
        }
    }
}
