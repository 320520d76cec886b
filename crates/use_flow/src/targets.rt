//! Where the methods of a state lead.
//! The place of a method in a state is kept with its context, so that no state of many methods is searched: what
//! is kept is tried first, and where nothing is kept of a state that calls lead to, it doesn't offer the method.

ghost use Rattle.std.specs.Prelude.{◌≡◌, map, option_map, IfSome};
ghost use Rattle.std.specs.Bool.{OnTrue};
ghost use Rattle.mg_text.specs.Call.{Name as Spelling};
ghost use Rattle.ts_tree.specs.Calls.{offered, offered_in};
ghost use Rattle.ts_tree.specs.Proper.{AreDistinct};
ghost use Rattle.ts_tree.specs.View.{method_of, target_of};
ghost use Rattle.jv_core.specs.Lookup.{text_at};
ghost use Rattle.use_rules.specs.Elements.{target_at};
ghost use Rattle.use_rules.specs.Keys.{typestate_of};
ghost use Rattle.use_flow.specs.inner.Followed.{seen};
ghost use Rattle.use_flow.specs.inner.Targets.{IsTold};
ghost use Rattle.use_elements.specs.Mappings.{typestate_or_end};

use crate::Context;
use crate::arguments::method_at;
use crate::scene::{Scene, typestate_of};
use jv_core::{MethodKind, name_text};
use mg_text::Name;
use ts_tree::{Method, Target, Typestate};

// So many are searched as fast as one is looked up.
const FEW_METHODS: usize = 3;

/// Which method: its class, its name, and its number.
#[derive(Clone, Copy)]
pub(crate) struct MethodKey {
    pub class: u32,
    pub name: Name,
    pub number: u32,
}

// The method of a name among those of a state.
#[tactic(auto, using(crate::proofs::Seeking::seeking))]
fn offered_in<'t>(methods: &'t [Method], name: &str) -> Option<&'t Method>
    ensures { option_map (λ m. method_of m.now) result ≡ offered_in (map method_of methods.now) name.now }
{
    for method in methods {
        if method.name.as_str() == name {
            return Some(method);
        }
    }
    None
}

// The method of a name among those of a state, of which no two have one name; the place is tried first.
#[tactic(auto, using(crate::proofs::Placing::placing))]
fn offered_near<'t>(methods: &'t [Method], name: &str, place: usize) -> Option<&'t Method>
    requires { AreDistinct (map (λ m. m.name) (map method_of methods.now)) }
    ensures { option_map (λ m. method_of m.now) result ≡ offered_in (map method_of methods.now) name.now }
{
    if place < methods.len() {
        let method = &methods[place];
        if method.name.as_str() == name {
            return Some(method);
        }
    }
    offered_in(methods, name)
}

// The methods of a state, of which no two have one name; none where there is no such state.
fn methods_at(typestate: &Typestate, state: usize) -> &[Method]
    ensures distinct { AreDistinct (map (λ m. m.name) (map method_of result.now)) }
    ensures offered { (name : Spelling) → offered typestate.now state name ≡ offered_in (map method_of result.now) name }
{
    match typestate.states.as_slice().get(state) {
        Some(state) => state.methods.as_slice(),
        None => &[],
    }
}

// Where a method leads that the state offers; the place is tried first.
#[tactic(auto, using(crate::proofs::Scenes::scenes))]
fn target_near<'t>(
    typestate: Option<&'t Typestate>,
    method: &str,
    state: usize,
    place: usize,
) -> Option<&'t Target>
    ensures { option_map (λ t. target_of t.now) result ≡ target_at (typestate_or_end (option_map (λ t. t.now) typestate.entry)) method.now
        state }
{
    let methods = methods_at(typestate?, state);
    let offered = offered_near(methods, method, place)?;
    Some(&offered.target)
}

// Where a method leads, told at once where the state has few methods.
#[tactic(auto, using(crate::proofs::Scenes::scenes))]
fn target_of_few<'t>(
    typestate: Option<&'t Typestate>,
    method: &str,
    state: usize,
) -> Option<Option<&'t Target>>
    ensures { IfSome result (λ o. option_map (λ t. target_of t.now) o ≡ target_at
        (typestate_or_end (option_map (λ t. t.now) typestate.entry)) method.now state) }
{
    let methods = methods_at(typestate?, state);
    if methods.len() > FEW_METHODS {
        return None;
    }
    match offered_in(methods, method) {
        Some(offered) => Some(Some(&offered.target)),
        None => Some(None),
    }
}

impl<'a> Scene<'a> {
    // Whether calls lead to the state, and the protocol method of this number has the class and the name.
    fn is_told(&self, key: MethodKey, state: usize) -> bool
        ensures { OnTrue result (IsTold (seen self.now) key state) }
    {
        let Some(method) = method_at(self.core, key.number) else {
            return false;
        };
        if method.kind != MethodKind::Protocol {
            return false;
        }
        if method.class != key.class || method.name != key.name {
            return false;
        }
        self.tables.is_reached(self.core, key.class, state)
    }

    // Where a method leads from a state of its class.
    pub(crate) fn target_of(&self, key: MethodKey, state: usize) -> Option<&Target>
        ensures { option_map (λ t. target_of t.now) result ≡ target_at (typestate_of (seen self.now).program key.class)
            (text_at (seen self.now).program key.name.0) state }
    {
        let typestate = typestate_of(self.core, key.class);
        let name = name_text(self.core, key.name);
        let Ok(number) = u32::try_from(state) else {
            return target_near(typestate, name, state, 0);
        };
        if let Some(told) = target_of_few(typestate, name, state) {
            return told;
        }
        let context = Context::Protocol {
            class: key.class,
            state: number,
            method: key.number,
        };
        match self.tables.place_in(context) {
            Some(place) => target_near(typestate, name, state, place),
            None => {
                if self.is_told(key, state) {
                    return None;
                }
                target_near(typestate, name, state, 0)
            }
        }
    }
}
