//! The server: the documents that stand open, how lines are counted, and the phase.

use crate::phase::{self, Phase};
use crate::standing::stand;
use crate::step::{self, Step};
use lsp_messages::{Call, Code, Id, Incoming, Notice};
use lsp_text::{Documents, Encoding};
use mg_text::Memory;
use std::alloc::Global;

/// A language server.
#[derive(Drop)]
pub struct Server {
    documents: Documents,
    encoding: Encoding,
    phase: Phase,
}

impl Server {
    ghost use Rattle.std.specs.Prelude.{◌≡◌, IfOk, OnOk};
    ghost use Rattle.lsp_text.specs.declared.encoding.Encoding.TheVariants.{Utf16};
    ghost use Rattle.lsp_core.specs.declared.phase.Phase.TheVariants.{Fresh};
    ghost use Rattle.lsp_core.specs.Phases.{call_phase, notice_phase, next_phase};
    ghost use Rattle.lsp_core.specs.Steps.{call_step, notice_step, step_of, call_encoding, next_encoding};
    ghost use Rattle.lsp_core.specs.Standing.{AreNone, AfterNoticeIn, AfterMessage};

    /// A server that has heard nothing: no documents are open.
    pub fn new(alloc: Global) -> Server
        ensures documents { AreNone result.documents }
        ensures encoding { result.encoding ≡ Utf16 }
        ensures phase { result.phase ≡ Fresh }
    {
        Server {
            documents: Documents::new(alloc),
            encoding: Encoding::Utf16,
            phase: Phase::Fresh,
        }
    }

    /// The documents that are open.
    pub fn documents(&self) -> &Documents
        ensures { result.now ≡ self.now.documents }
    {
        &self.documents
    }

    /// How the client counts the characters of a line.
    pub fn encoding(&self) -> Encoding
        ensures { result ≡ self.now.encoding }
    {
        self.encoding
    }

    /// Where the server stands between its start and its end.
    pub fn phase(&self) -> Phase
        ensures { result ≡ self.now.phase }
    {
        self.phase
    }

    // Takes a request.
    fn request(&mut self, id: Id, call: Call) -> Step
        ensures step { result ≡ call_step self.old.phase id call }
        ensures phase { self.new.phase ≡ call_phase self.old.phase call }
        ensures encoding { self.new.encoding ≡ call_encoding self.old.phase self.old.encoding call }
        ensures documents { self.new.documents ≡ self.old.documents }
    {
        let phase = self.phase;
        self.encoding = step::counted(phase, self.encoding, &call);
        self.phase = phase::called(phase, &call);
        step::called(phase, id, call)
    }

    // Takes a notification.
    fn notice(&mut self, alloc: Global, notice: Notice) -> Result<Step, Memory>
        ensures step { IfOk result (λ s. s ≡ notice_step self.old.phase notice) }
        ensures phase { OnOk result (self.new.phase ≡ notice_phase self.old.phase notice) }
        ensures encoding { OnOk result (self.new.encoding ≡ self.old.encoding) }
        ensures documents { OnOk result (AfterNoticeIn self.old.phase self.old.encoding notice self.old.documents self.new.documents) }
    {
        let phase = self.phase;
        self.phase = phase::noticed(phase, &notice);
        if phase != Phase::Running {
            return Ok(Step::Quiet);
        }
        stand(alloc, &mut self.documents, self.encoding, &notice)?;
        Ok(step::noticed(notice))
    }

    /// Takes a message. What comes of it is to be told or done before the next.
    ///
    /// # Errors
    /// `Memory` only. The documents may then have some of a document's changes.
    pub fn step(&mut self, alloc: Global, message: Incoming) -> Result<Step, Memory>
        // What it comes to.
        ensures step { IfOk result (λ s. s ≡ step_of self.old.phase message) }
        // The phase behind it.
        ensures phase { OnOk result (self.new.phase ≡ next_phase self.old.phase message) }
        // How lines are counted from then on.
        ensures encoding { OnOk result (self.new.encoding ≡ next_encoding self.old.phase self.old.encoding message) }
        // Which documents stand from then on, and with which texts.
        ensures documents { OnOk result (AfterMessage self.old.phase self.old.encoding message self.old.documents self.new.documents) }
    {
        match message {
            Incoming::Request { id, call } => Ok(self.request(id, call)),
            Incoming::Told(notice) => self.notice(alloc, notice),
            Incoming::Reply => Ok(Step::Quiet),
            Incoming::Malformed => Ok(step::ill(self.phase, None, Code::ParseError)),
            Incoming::Ill { id } => Ok(step::ill(self.phase, id, Code::InvalidRequest)),
        }
    }
}
