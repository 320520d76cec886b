//! The messages between the roles of a run: a list for each ordered pair of them.

ghost use Rattle.std.specs.Prelude.{◌≡◌, drop, slice_get, option_map, IfOk, OnOk, OnErr};
ghost use Rattle.std.specs.List.{IsDistinct};
ghost use Rattle.std.specs.Str.{bytes_eq};
ghost use Rattle.vm_model.specs.Messages.{on_way, sending, with_list, role_named, no_messages};

use crate::outbox::Outbox;
use mg_text::{Memory, Names, Sent, Text};
use std::alloc::Global;
use std::marker::Model;

/// Roles, and for each ordered pair of them the messages on their way from one to the other.
pub struct Ports {
    roles: Names,
    // What each role has sent.
    sent: Vec<Outbox>,
}

// One call lets go of it, wherever a function ends.
impl Drop for Ports {
    fn drop(self) {
        let Ports { roles: _, sent: _ } = self;
    }
}

impl Model for Ports {
    ghost use Rattle.vm_model.specs.Messages.{Messages};

    ghost Value = { Messages };

    ghost view = { λ p. record { roles = p.roles; lists = p.sent.items } };
}

/// The names of roles, in a table.
fn table_of(alloc: Global, roles: &[Text]) -> Result<Names, Memory>
    requires { IsDistinct bytes_eq roles.now }
    ensures { IfOk result (λ names. names ≡ roles.now) }
{
    let mut names = Names::new(alloc);
    for role in roles {
        if names.len() > 0xffff_fffe {
            return Err(Memory);
        }
        names.add(role.as_str())?;
    }
    Ok(names)
}

impl Ports {
    /// The ports of these roles, which are distinct, with no messages on their way.
    ///
    /// # Errors
    /// `Memory` only.
    pub fn new(alloc: Global, roles: &[Text]) -> Result<Ports, Memory>
        requires { IsDistinct bytes_eq roles.now }
        ensures { IfOk result (λ p. p ≡ no_messages roles.now) }
    {
        let names = table_of(alloc, roles)?;
        let Ok(count) = u32::try_from(roles.len()) else {
            return Err(Memory);
        };
        let mut sent = Vec::new(alloc);
        for _ in 0..count {
            sent.push(Outbox::new(alloc, count))?;
        }
        Ok(Ports { roles: names, sent })
    }

    /// The number of the role of this name.
    pub fn role(&self, name: &str) -> Option<u32>
        ensures { result ≡ role_named self.now name.now }
    {
        match self.roles.find(name) {
            Some(found) => Some(found.0),
            None => None,
        }
    }

    /// The next message from a role to another.
    pub fn first(&self, from: u32, to: u32) -> Option<&Sent>
        ensures { option_map (λ m. m.now) result ≡ slice_get (on_way self.now from to) 0 }
    {
        let outbox = self.sent.get(from as usize)?;
        outbox.first(to)
    }

    /// Sends a message from a role to another. After an error nothing has changed.
    ///
    /// # Errors
    /// `Memory` only.
    pub fn send(&mut self, from: u32, to: u32, message: Sent) -> Result<(), Memory>
        ensures ok { OnOk result (self.new ≡ sending self.old from to message) }
        ensures err { OnErr result (self.new ≡ self.old) }
    {
        let from = from as usize;
        if from < self.sent.len() {
            let outbox = &mut self.sent[from];
            return outbox.send(to, message);
        }
        Ok(())
    }

    /// Takes the next message from a role to another.
    pub fn take(&mut self, from: u32, to: u32) -> Option<Sent>
        ensures list { self.new ≡ with_list self.old from to (drop 1 (on_way self.old from to)) }
        ensures first { result ≡ slice_get (on_way self.old from to) 0 }
    {
        let from = from as usize;
        if from < self.sent.len() {
            let outbox = &mut self.sent[from];
            outbox.take(to)
        } else {
            None
        }
    }
}
