//! A valid local protocol, which keeps that fact by its type.

ghost use Rattle.scr_tree.specs.View.{written, statements, part_of};
ghost use Rattle.scr_tree.specs.Valid.{IsValid};

use crate::{Part, Statement};
use mg_text::{List, Text};

/// A valid local protocol: what one role does, and the roles that it does it with.
pub struct Local {
    file: u32,
    name: Text,
    me: Text,
    roles: List<Text>,
    body: List<Statement>,
    others: List<Part>,
    ghost valid: { ∥ IsValid (written file name me roles.items body.items others.items) ∥₁ },
}

// One call lets go of it, wherever a function ends.
impl Drop for Local {
    fn drop(self) {
        let Local {
            file: _,
            name: _,
            me: _,
            roles: _,
            body: _,
            others: _,
        } = self;
    }
}

impl Local {
    ghost use Rattle.std.specs.Prelude.{◌≡◌, map};
    ghost use Rattle.scr_tree.specs.Local.{tree_of};

    /// The protocol of these parts, which are valid.
    pub fn new(
        file: u32,
        name: Text,
        me: Text,
        roles: List<Text>,
        body: List<Statement>,
        others: List<Part>,
    ) -> Local
        requires { ∥ IsValid (written file name me roles.items body.items others.items) ∥₁ }
        ensures { tree_of result ≡ written file name me roles.items body.items others.items }
    {
        Local {
            file,
            name,
            me,
            roles,
            body,
            others,
        }
    }

    /// The number of the file that it was read from.
    pub fn file(&self) -> u32
        ensures { result ≡ (tree_of self.now).file }
    {
        self.file
    }

    /// The name of the protocol, which is the first of its file.
    pub fn name(&self) -> &Text
        ensures { result.now ≡ (tree_of self.now).name }
    {
        &self.name
    }

    /// The role that it is of.
    pub fn me(&self) -> &Text
        ensures { result.now ≡ (tree_of self.now).me }
    {
        &self.me
    }

    /// All roles, in the order of the text.
    pub fn roles(&self) -> &List<Text>
        ensures { result.now.items ≡ (tree_of self.now).roles }
    {
        &self.roles
    }

    /// What the role does.
    pub fn body(&self) -> &List<Statement>
        ensures { statements result.now.items ≡ (tree_of self.now).body }
    {
        &self.body
    }

    /// The protocols behind the first, in the order of the text. A `do` may go on as one of them.
    pub fn others(&self) -> &List<Part>
        ensures { map part_of result.now.items ≡ (tree_of self.now).others }
    {
        &self.others
    }
}
