//! A valid global protocol, which keeps that fact by its type.

ghost use Rattle.scr_global_tree.specs.View.{written, statements};
ghost use Rattle.scr_global_tree.specs.Valid.{IsValid};

use crate::GStatement;
use mg_text::{List, Place, Text};

/// A valid global protocol: the roles, and what they do.
pub struct Global {
    file: u32,
    name: Text,
    roles: List<Text>,
    places: List<Place>,
    body: List<GStatement>,
    ghost valid: { ∥ IsValid (written file name roles.items places.items body.items) ∥₁ },
}

// One call lets go of it, wherever a function ends.
impl Drop for Global {
    fn drop(self) {
        let Global {
            file: _,
            name: _,
            roles: _,
            places: _,
            body: _,
        } = self;
    }
}

impl Global {
    ghost use Rattle.std.specs.Prelude.{◌≡◌};
    ghost use Rattle.scr_global_tree.specs.Global.{tree_of};

    /// The protocol of these parts, which are valid.
    pub fn new(
        file: u32,
        name: Text,
        roles: List<Text>,
        places: List<Place>,
        body: List<GStatement>,
    ) -> Global
        requires { ∥ IsValid (written file name roles.items places.items body.items) ∥₁ }
        ensures { tree_of result ≡ written file name roles.items places.items body.items }
    {
        Global {
            file,
            name,
            roles,
            places,
            body,
        }
    }

    /// The number of the file that it was read from.
    pub fn file(&self) -> u32
        ensures { result ≡ (tree_of self.now).file }
    {
        self.file
    }

    /// The protocol's name.
    pub fn name(&self) -> &Text
        ensures { result.now ≡ (tree_of self.now).name }
    {
        &self.name
    }

    /// The roles, in the order of the text.
    pub fn roles(&self) -> &List<Text>
        ensures { result.now.items ≡ (tree_of self.now).roles }
    {
        &self.roles
    }

    /// The places of the roles' names in the header, in the same order.
    pub fn places(&self) -> &List<Place>
        ensures { result.now.items ≡ (tree_of self.now).places }
    {
        &self.places
    }

    /// What the roles do.
    pub fn body(&self) -> &List<GStatement>
        ensures { statements result.now.items ≡ (tree_of self.now).body }
    {
        &self.body
    }
}
