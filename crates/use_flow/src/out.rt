//! What flows out of a context, what fails in it, and what its calls are made on.
//! Each is in the order in which it is met.

use crate::{Demand, TableKey};
use jv_core::Var;
use mg_sets::StateSet;
use mg_text::{List, Place};

/// A set that flows into a table.
pub struct Out {
    pub key: TableKey,
    pub set: StateSet,
}

// One call lets go of it, wherever a function ends.
impl Drop for Out {
    fn drop(self) {
        let Out { key: _, set: _ } = self;
    }
}

/// What a variable has where a protocol method is called on it, behind the arguments: the place at which the
/// variable is named there, the variable, the number of the method, and the set.
pub struct Sight {
    pub place: Place,
    pub variable: Var,
    pub method: u32,
    pub set: StateSet,
}

// One call lets go of it, wherever a function ends.
impl Drop for Sight {
    fn drop(self) {
        let Sight {
            place: _,
            variable: _,
            method: _,
            set: _,
        } = self;
    }
}

/// What flows into tables, the demands that fail, and the sights.
#[derive(Drop)]
pub struct Flow {
    pub outs: List<Out>,
    pub failed: List<Demand>,
    pub sights: List<Sight>,
}
