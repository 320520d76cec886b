//! What is being typed, and the calls that are tried there.

ghost use Rattle.std.specs.Prelude.{◌≡◌, IfOk, MatchOption};
ghost use Rattle.jv_core.specs.Tree.{Program};
ghost use Rattle.mg_accepted.specs.Program.{HaveCore};
ghost use Rattle.lsp_offers.specs.inner.Typed.{IsOnlyCore, IsTyping, contents_with, files_of, Offered, Unfit, AllOffered, Here};

use crate::attempts::{Attempt, attempts};
use crate::called::items_in;
use crate::documents::with_document;
use crate::programs::{core_of, program_without};
use crate::repaired::repaired;
use crate::spots::Spot;
use jv_core::Core;
use lsp_messages::Item;
use mg_text::{Bytes, Memory, Place, Text};
use std::alloc::Global;

/// What is being typed at a spot up to an offset, in the text of the file of a number of these files, and the place of
/// the spot.
#[derive(Drop)]
pub(crate) struct Typing<'a> {
    pub names: &'a [Text],
    pub contents: &'a [Bytes],
    pub file: u32,
    pub text: &'a [u8],
    pub offset: usize,
    pub spot: Spot,
    pub place: Place,
}

impl<'a> Typing<'a> {
    // The contents of the files with a call.
    fn contents_with(&self, alloc: Global, attempt: &Attempt) -> Result<Vec<Bytes>, Memory>
        requires { IsTyping self.now }
        ensures { IfOk result (λ v. v.items ≡ contents_with self.now attempt.now) }
    {
        let text = repaired(alloc, self.text, self.spot, self.offset, attempt)?;
        with_document(alloc, self.contents, self.file, text.as_slice())
    }

    // The core of the files with it, if they have one.
    fn core_with(&self, alloc: Global, attempt: &Attempt) -> Result<Option<Core>, Memory>
        requires { IsTyping self.now }
        ensures { IfOk result (λ o. MatchOption o ((core : Program) → ¬ HaveCore (files_of self.now attempt.now) core)
            (IsOnlyCore (files_of self.now attempt.now))) }
    {
        let contents = self.contents_with(alloc, attempt)?;
        core_of(alloc, self.names, contents.as_slice())
    }

    // What is offered, as this call tells, where it fits.
    fn offered_with(&self, alloc: Global, attempt: &Attempt) -> Result<Option<Vec<Item>>, Memory>
        requires { IsTyping self.now }
        ensures { IfOk result (λ o. MatchOption o (Unfit self.now attempt.now) (λ v. Offered self.now attempt.now v.items)) }
    {
        match self.core_with(alloc, attempt)? {
            Some(core) => items_in(alloc, &core, self.place),
            None => Ok(None),
        }
    }

    // What is offered, as the first of these calls tells that fits.
    fn offered(&self, alloc: Global, attempts: &[Attempt]) -> Result<Vec<Item>, Memory>
        requires { IsTyping self.now }
        ensures { IfOk result (λ v. AllOffered self.now attempts.now v.items) }
    {
        for attempt in attempts {
            let found = self.offered_with(alloc, attempt)?;
            if let Some(items) = found {
                return Ok(items);
            }
        }
        Ok(Vec::new(alloc))
    }

    /// What is offered where this is being typed.
    ///
    /// # Errors
    /// `Memory` where memory is wanted, or where a program has more parts than a core can number.
    pub(crate) fn offers(&self, alloc: Global) -> Result<Vec<Item>, Memory>
        requires { IsTyping self.now }
        ensures { IfOk result (λ v. Here self.now v.items) }
    {
        match program_without(alloc, self.names, self.contents, self.file)? {
            Some(sources) => {
                let attempts = attempts(alloc, sources.typestates.as_slice())?;
                drop(sources);
                self.offered(alloc, attempts.as_slice())
            }
            None => Ok(Vec::new(alloc)),
        }
    }
}
