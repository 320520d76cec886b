//! Tables in which it is noted where the arrows of calls stand among those of their states.
//! Nothing rests on what they say: it is only tried.

use crate::arrow::Exits;
use crate::laying::Laying;
use mg_text::Memory;
use scr_tree::{Message, call_name};
use std::alloc::Global;
use std::collections::HashMap;

/// A state with no more arrows has no table: to look at each of them takes no longer.
pub const FEW: usize = 8;

/// The places of the arrows of a state, by the names of their calls or by their labels.
type Places = HashMap<String, usize>;

/// The places of the arrows of the states that have many, by the numbers of the states.
pub type Tables = HashMap<u32, Places>;

/// Where the arrow of a text was noted to stand among those of a state, if it was.
pub fn noted(tables: &Tables, state: u32, text: &str) -> Option<usize> {
    match tables.get(&state) {
        Some(places) => places.get(text).copied(),
        None => None,
    }
}

// What an arrow is looked for by: a message by the name of its call, a look by its label.
fn text_of(alloc: Global, is_look: bool, message: &Message) -> Result<String, Memory> {
    if is_look {
        return Ok(String::from_str(alloc, message.label.as_str())?);
    }
    let name = call_name(alloc, message)?;
    Ok(String::from_str(alloc, name.as_str())?)
}

// The places of the arrows of a state.
fn places_of(alloc: Global, exits: &Exits<'_>) -> Result<Places, Memory> {
    let mut places = HashMap::new(alloc);
    let mut place: usize = 0;
    for arrow in exits.arrows.as_slice() {
        let text = text_of(alloc, exits.number.is_some(), arrow.message)?;
        places.insert(text, place)?;
        place = place.wrapping_add(1);
    }
    Ok(places)
}

/// The tables of the states of a text that have many arrows.
pub fn tables_of(alloc: Global, laid: &Laying<'_>) -> Result<Tables, Memory> {
    let mut tables = HashMap::new(alloc);
    let mut number = laid.len();
    for exits in laid.exits.as_slice() {
        number = number.wrapping_sub(1);
        if exits.arrows.len() > FEW {
            tables.insert(number, places_of(alloc, exits)?)?;
        }
    }
    Ok(tables)
}
