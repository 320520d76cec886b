//! The texts and messages that notes number, and how an event is kept as a note.

ghost use Rattle.std.specs.Prelude.{◌≡◌, ◌<◌, ◌≤◌, ◌+◌, [], IfOk, OnOk};
ghost use Rattle.vm_events.specs.Seen.{carried_of, event_of};
ghost use Rattle.vm_events.specs.inner.Kept.{carried_in, message_at, event_in};
ghost use Rattle.vm_events.specs.inner.Keeping.{HasLoad, HasMessage, Keeps};

use crate::note::{Load, Message, Short};
use crate::numbered::left;
use crate::seen::{SeenCarried, SeenEvent};
use crate::texts::{TEXTS, Texts};
use mg_text::{Carried, Event, List, Memory, Text};
use std::alloc::Global;

/// Texts and messages by their numbers.
#[derive(Drop)]
pub(crate) struct Tables {
    pub texts: Texts,
    pub messages: List<Message>,
}

impl Tables {
    /// Neither texts nor messages.
    ///
    /// # Errors
    /// `Memory` only.
    pub(crate) fn new(alloc: Global) -> Result<Tables, Memory>
        ensures texts { IfOk result (λ t. t.texts.kept.items ≡ []) }
        ensures messages { IfOk result (λ t. t.messages.items ≡ []) }
    {
        let texts = Texts::new(alloc)?;
        Ok(Tables {
            texts,
            messages: List::new(alloc),
        })
    }

    /// Makes room for what one event more numbers.
    ///
    /// # Errors
    /// `Memory` only.
    pub(crate) fn reserve(&mut self) -> Result<(), Memory>
        ensures texts { self.new.texts.kept.items ≡ self.old.texts.kept.items }
        ensures messages { self.new.messages.items ≡ self.old.messages.items }
        ensures room_of_texts { OnOk result (3 ≤ self.new.texts.kept.spare) }
        ensures room_of_messages { OnOk result (1 ≤ self.new.messages.spare) }
        ensures texts_never_lowered { self.old.texts.kept.spare ≤ self.new.texts.kept.spare }
        ensures messages_never_lowered { self.old.messages.spare ≤ self.new.messages.spare }
    {
        self.texts.reserve(TEXTS)?;
        self.messages.reserve(1)
    }

    /// What a message carries, in few bytes.
    fn load(&mut self, alloc: Global, payload: &mut Carried) -> Load
        requires { 0 < self.old.texts.kept.spare }
        ensures load { HasLoad self.old.texts.kept.items self.new.texts.kept.items result payload.old }
        ensures messages { self.new.messages ≡ self.old.messages }
        ensures spare { self.old.texts.kept.spare ≤ self.new.texts.kept.spare + 1 }
    {
        match payload {
            Carried::Nothing => Load::Nothing,
            Carried::Int(number) => Load::Int(*number),
            Carried::Truth(truth) => Load::Truth(*truth),
            Carried::Text(text) => Load::Text(self.texts.number_of(alloc, text)),
        }
    }

    /// The number of a message, which is kept.
    fn message(
        &mut self,
        alloc: Global,
        peer: &mut Text,
        label: &mut Text,
        payload: &mut Carried,
    ) -> u32
        requires texts { 3 ≤ self.old.texts.kept.spare }
        requires messages { 0 < self.old.messages.spare }
        ensures message { HasMessage self.old self.new result peer.old label.old payload.old }
        ensures texts { self.old.texts.kept.spare ≤ self.new.texts.kept.spare + 3 }
        ensures messages { self.old.messages.spare ≤ self.new.messages.spare + 1 }
    {
        let peer = self.texts.number_of(alloc, peer);
        let label = self.texts.number_of(alloc, label);
        let load = self.load(alloc, payload);
        let number = self.messages.len() as u32;
        self.messages.add(Message { peer, label, load });
        number
    }

    /// An event in few bytes. What it names is kept.
    pub(crate) fn keep(&mut self, alloc: Global, event: &mut Event) -> Short
        requires texts { 3 ≤ self.old.texts.kept.spare }
        requires messages { 0 < self.old.messages.spare }
        ensures keeps { Keeps self.old self.new result event.old }
        ensures texts { self.old.texts.kept.spare ≤ self.new.texts.kept.spare + 3 }
        ensures messages { self.old.messages.spare ≤ self.new.messages.spare + 1 }
    {
        let texts = &mut self.texts;
        match event {
            Event::Print(text) => Short::Print(texts.number_of(alloc, text)),
            Event::Made { object, class } => Short::Made {
                object: *object,
                class: texts.number_of(alloc, class),
            },
            Event::Enter { object, method } => Short::Enter {
                object: *object,
                method: texts.number_of(alloc, method),
            },
            Event::Leave { object, answer } => left(*object, *answer),
            Event::Send {
                peer,
                label,
                payload,
            } => Short::Send(self.message(alloc, peer, label, payload)),
            Event::Look { peer, label } => Short::Look {
                peer: texts.number_of(alloc, peer),
                label: texts.number_of(alloc, label),
            },
            Event::Take {
                peer,
                label,
                payload,
            } => Short::Take(self.message(alloc, peer, label, payload)),
        }
    }

    /// What a message carries.
    fn carried(&self, load: Load) -> SeenCarried<'_>
        ensures { carried_of result ≡ carried_in self.now.texts.kept.items load }
    {
        match load {
            Load::Nothing => SeenCarried::Nothing,
            Load::Int(number) => SeenCarried::Int(number),
            Load::Truth(truth) => SeenCarried::Truth(truth),
            Load::Text(text) => SeenCarried::Text(self.texts.text(text)),
        }
    }

    /// The message of a number; one of no role where there is none.
    fn message_at(&self, number: u32) -> Message
        ensures { result ≡ message_at self.now.messages.items number }
    {
        match self.messages.as_slice().get(number as usize) {
            Some(message) => *message,
            None => Message {
                peer: 0,
                label: 0,
                load: Load::Nothing,
            },
        }
    }

    /// The event that is kept in few bytes.
    pub(crate) fn seen(&self, event: Short) -> SeenEvent<'_>
        ensures { event_of result ≡ event_in self.now.texts.kept.items self.now.messages.items event }
    {
        let texts = &self.texts;
        match event {
            Short::Print(text) => SeenEvent::Print(texts.text(text)),
            Short::Made { object, class } => SeenEvent::Made {
                object,
                class: texts.text(class),
            },
            Short::Enter { object, method } => SeenEvent::Enter {
                object,
                method: texts.text(method),
            },
            Short::Left(object) => SeenEvent::Leave {
                object,
                answer: None,
            },
            Short::Answered { object, answer } => SeenEvent::Leave {
                object,
                answer: Some(answer),
            },
            Short::Send(number) => {
                let message = self.message_at(number);
                SeenEvent::Send {
                    peer: texts.text(message.peer),
                    label: texts.text(message.label),
                    payload: self.carried(message.load),
                }
            }
            Short::Look { peer, label } => SeenEvent::Look {
                peer: texts.text(peer),
                label: texts.text(label),
            },
            Short::Take(number) => {
                let message = self.message_at(number);
                SeenEvent::Take {
                    peer: texts.text(message.peer),
                    label: texts.text(message.label),
                    payload: self.carried(message.load),
                }
            }
        }
    }
}
