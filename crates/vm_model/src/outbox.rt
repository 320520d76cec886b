//! The messages on their way from one role: a queue for each role to which it has sent any.
//! Taking the first message of a queue shifts no other.

ghost use Rattle.std.specs.Prelude.{◌≡◌, [], ◌∷◌, ◌++◌, ℕ, None, drop, nat_eq, replicate, slice_get, slice_set, option_map, OnOk, OnErr};
ghost use Rattle.std.specs.HashMap.{get};
ghost use Rattle.vm_model.specs.Messages.{or_nothing};
ghost use Rattle.vm_model.specs.Outboxes.{ChangesList, list_to};

use mg_text::{Memory, Sent};
use std::alloc::Global;
use std::collections::{HashMap, VecDeque};
use std::marker::Model;

/// The messages on their way from a role. Contracts see a list for each role, and the program has a
/// queue for those alone to which any was sent.
pub(crate) struct Outbox {
    alloc: Global,
    // How many roles there are.
    count: u32,
    queues: HashMap<u32, VecDeque<Sent>>,
}

// One call lets go of it, wherever a function ends.
impl Drop for Outbox {
    fn drop(self) {
        let Outbox {
            alloc: _,
            count: _,
            queues: _,
        } = self;
    }
}

impl Model for Outbox {
    ghost use Rattle.std.specs.Prelude.{List};
    ghost use Rattle.mg_text.specs.declared.event.Sent.{Sent};
    ghost use Rattle.vm_model.specs.Outboxes.{lists_below, list_to};

    ghost Value = { List (List Sent) };

    ghost view = { λ o. lists_below o.count (list_to (λ queue. queue.items) o.queues) };
}

/// Begins the queue of a receiver that has none, with a message.
fn begin_queue(
    alloc: Global,
    queues: &mut HashMap<u32, VecDeque<Sent>>,
    to: u32,
    message: Sent,
) -> Result<(), Memory>
    requires { get nat_eq queues.old to ≡ None }
    ensures ok { OnOk result (ChangesList (list_to (λ queue. queue.items) queues.old) (list_to (λ queue. queue.items) queues.new) to
        (message ∷ [])) }
    ensures err { OnErr result ((role : ℕ) → list_to (λ queue. queue.items) queues.new role
        ≡ list_to (λ queue. queue.items) queues.old role) }
{
    let mut queue = VecDeque::new(alloc);
    queue.push_back(message)?;
    queues.insert(to, queue)?;
    Ok(())
}

/// Appends a message to the queue of a receiver.
fn append_to(
    alloc: Global,
    queues: &mut HashMap<u32, VecDeque<Sent>>,
    to: u32,
    message: Sent,
) -> Result<(), Memory>
    ensures ok { OnOk result (ChangesList (list_to (λ queue. queue.items) queues.old) (list_to (λ queue. queue.items) queues.new) to
        (list_to (λ queue. queue.items) queues.old to ++ message ∷ [])) }
    ensures err { OnErr result ((role : ℕ) → list_to (λ queue. queue.items) queues.new role
        ≡ list_to (λ queue. queue.items) queues.old role) }
{
    match queues.get_mut(&to) {
        Some(queue) => match queue.push_back(message) {
            Ok(()) => Ok(()),
            Err(_refused) => Err(Memory),
        },
        None => begin_queue(alloc, queues, to, message),
    }
}

/// Takes the first message of the queue of a receiver.
fn take_first(queues: &mut HashMap<u32, VecDeque<Sent>>, to: u32) -> Option<Sent>
    ensures list { ChangesList (list_to (λ queue. queue.items) queues.old) (list_to (λ queue. queue.items) queues.new) to
        (drop 1 (list_to (λ queue. queue.items) queues.old to)) }
    ensures first { result ≡ slice_get (list_to (λ queue. queue.items) queues.old to) 0 }
{
    match queues.get_mut(&to) {
        Some(queue) => queue.pop_front(),
        None => None,
    }
}

impl Outbox {
    /// The messages on their way from a role that has sent none, where there are so many roles.
    pub fn new(alloc: Global, count: u32) -> Outbox
        ensures { result ≡ replicate count [] }
    {
        let queues = HashMap::new(alloc);
        Outbox {
            alloc,
            count,
            queues,
        }
    }

    /// The next message to a role.
    pub fn first(&self, to: u32) -> Option<&Sent>
        ensures { option_map (λ m. m.now) result ≡ slice_get (or_nothing (slice_get self.now to)) 0 }
    {
        if to >= self.count {
            return None;
        }
        match self.queues.get(&to) {
            Some(queue) => queue.front(),
            None => None,
        }
    }

    /// Sends a message to a role, if there is one of that number. After an error nothing has changed.
    pub fn send(&mut self, to: u32, message: Sent) -> Result<(), Memory>
        ensures ok { OnOk result (self.new ≡ slice_set self.old to (or_nothing (slice_get self.old to) ++ message ∷ [])) }
        ensures err { OnErr result (self.new ≡ self.old) }
    {
        if to < self.count {
            return append_to(self.alloc, &mut self.queues, to, message);
        }
        Ok(())
    }

    /// Takes the next message to a role.
    pub fn take(&mut self, to: u32) -> Option<Sent>
        ensures list { self.new ≡ slice_set self.old to (drop 1 (or_nothing (slice_get self.old to))) }
        ensures first { result ≡ slice_get (or_nothing (slice_get self.old to)) 0 }
    {
        if to < self.count {
            take_first(&mut self.queues, to)
        } else {
            None
        }
    }
}
