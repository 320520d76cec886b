//! A session: the server, and what shows something at the client.

use crate::{asking, judging, showing};
use lsp_core::{Phase, Server, Step};
use lsp_folder::{File, program_of};
use lsp_messages::{Id, Incoming, Outgoing, Question};
use mg_text::{Memory, Text};
use std::alloc::Global;

/// A session with a client.
#[derive(Drop)]
pub struct Session {
    server: Server,
    // The names of the documents that show something at the client.
    shown: Vec<Text>,
}

impl Session {
    ghost use Rattle.std.specs.Prelude.{◌≡◌, [], IfOk, OnErr};
    ghost use Rattle.lsp_text.specs.declared.encoding.Encoding.TheVariants.{Utf16};
    ghost use Rattle.lsp_core.specs.declared.phase.Phase.TheVariants.{Fresh};
    ghost use Rattle.lsp_core.specs.Standing.{AreNone};
    ghost use Rattle.lsp_server.specs.Judging.{AreTold};
    ghost use Rattle.lsp_server.specs.Answering.{IsAnswered};
    ghost use Rattle.lsp_server.specs.Turns.{Hears, IsBehind};

    /// A session in which nothing was told.
    pub fn new(alloc: Global) -> Session
        ensures documents { AreNone result.server.documents }
        ensures encoding { result.server.encoding ≡ Utf16 }
        ensures phase { result.server.phase ≡ Fresh }
        ensures shown { result.shown.items ≡ [] }
    {
        Session {
            server: Server::new(alloc),
            shown: Vec::new(alloc),
        }
    }

    /// Where the server stands between its start and its end.
    pub fn phase(&self) -> Phase
        ensures { result ≡ self.now.server.phase }
    {
        self.server.phase()
    }

    /// Takes a message. What comes of it is to be done before the next: told, judged or answered.
    ///
    /// # Errors
    /// `Memory` only. The documents may then have some of a document's changes.
    pub fn step(&mut self, alloc: Global, message: Incoming) -> Result<Step, Memory>
        ensures { IfOk result (λ step. Hears self.old message step self.new) }
    {
        self.server.step(alloc, message)
    }

    /// What is wrong with the program of a document, of files that were read in its folder: a message for each of its
    /// sources, and before these one for each document of the folder that shows something and is no source any more.
    ///
    /// # Errors
    /// `Memory` only, also where there are 2^32 sources or more. The session is then as before.
    pub fn judge(
        &mut self,
        alloc: Global,
        document: &str,
        files: &[File],
    ) -> Result<Vec<Outgoing>, Memory>
        ensures told { IfOk result (λ v. AreTold self.old.server self.old.shown.items document.now files.now v.items) }
        ensures behind { IfOk result (λ v. IsBehind self.old document.now v.items self.new) }
        ensures err { OnErr result (self.new ≡ self.old) }
    {
        let program = program_of(alloc, self.server.documents(), document, files)?;
        let told = judging::told(
            alloc,
            self.server.encoding(),
            self.shown.as_slice(),
            document,
            &program,
        )?;
        self.shown = showing::showing(alloc, document, self.shown.as_slice(), told.as_slice())?;
        Ok(told)
    }

    /// The response to a question, by the program of its document and of files that were read in its folder.
    ///
    /// # Errors
    /// `Memory` only, also where there are 2^32 sources or more.
    pub fn answer(
        &self,
        alloc: Global,
        id: Id,
        question: &Question,
        files: &[File],
    ) -> Result<Outgoing, Memory>
        ensures { IfOk result (IsAnswered self.now.server id question.now files.now) }
    {
        let document = asking::asked_about(question);
        let program = program_of(alloc, self.server.documents(), document.as_str(), files)?;
        let answer = asking::answer_of(alloc, self.server.encoding(), &program, question)?;
        Ok(Outgoing::Answered { id, answer })
    }
}
