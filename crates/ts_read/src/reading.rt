//! Reading a typestate file: its bytes, what is written there, and what that means.
//! The first fault, in the order of their numbers, is answered.

ghost use Rattle.std.specs.Prelude.{◌≡◌, ◌≤◌, Some, length};
ghost use Rattle.ts_parse.specs.Written.{wfile_of};
ghost use Rattle.ts_read.specs.inner.Deciding.{broken_of};
ghost use Rattle.ts_read.specs.inner.Composing.{condition_of, IsToldOf, AreCut, IsWritten, IsMeant};

use crate::blame::Blamed;
use crate::build::states_meant;
use crate::judge::{Broken, first_broken};
use crate::unknown::state_table;
use crate::{Condition, MAX_BYTES, MAX_STATES, TsFault};
use mg_read::{LexFault, ParseFault};
use mg_text::{List, Place, place_of};
use std::alloc::Global;
use ts_parse::{Token, WrittenTypestate, read_written};
use ts_tree::Typestate;

// The place, or the end of the file.
fn place_or_end(file: u32, bytes: &[u8], place: Option<Place>) -> Place
    requires { length bytes.now ≤ 1048576 }
{
    match place {
        Some(place) => place,
        None => place_of(file, bytes, bytes.len()),
    }
}

// The tokens of a file.
fn tokens_of(alloc: Global, file: u32, bytes: &[u8]) -> Result<List<Token>, TsFault>
    requires { length bytes.now ≤ 1048576 }
    ensures { AreCut file bytes.now result }
{
    match ts_parse::tokens(alloc, file, bytes) {
        Ok(tokens) => Ok(tokens),
        Err(LexFault::BadByte(offset)) => Err(TsFault::BadByte {
            place: place_of(file, bytes, offset),
        }),
        Err(LexFault::Memory) => Err(TsFault::Memory),
    }
}

// What the bytes of a file spell.
fn written_in(alloc: Global, file: u32, bytes: &[u8]) -> Result<WrittenTypestate, TsFault>
    requires { length bytes.now ≤ 1048576 }
    ensures { IsWritten file bytes.now result }
{
    let tokens = tokens_of(alloc, file, bytes)?;
    match read_written(alloc, tokens.as_slice()) {
        Ok(written) => Ok(written),
        Err(ParseFault::Syntax(place)) => Err(TsFault::Syntax {
            place: place_or_end(file, bytes, place),
        }),
        Err(ParseFault::Memory) => Err(TsFault::Memory),
    }
}

// The fault that tells of a broken condition.
fn fault_for(broken: Broken) -> TsFault
    ensures { condition_of result ≡ Some (broken_of broken) }
{
    let Broken { condition, blamed } = broken;
    let Blamed { place, name } = blamed;
    match condition {
        Condition::DuplicateState => TsFault::DuplicateState { place, name },
        Condition::UnknownState => TsFault::UnknownState { place, name },
        Condition::DuplicateMethod => TsFault::DuplicateMethod { place, name },
        Condition::SignatureDiffers => TsFault::SignatureDiffers { place, name },
        Condition::DuplicateLabel => TsFault::DuplicateLabel { place, name },
        Condition::ReservedEnd => TsFault::ReservedEnd { place, name },
    }
}

// The typestate that is written, if it breaks no condition.
fn meant_by(alloc: Global, file: u32, written: &WrittenTypestate) -> Result<Typestate, TsFault>
    ensures { IsMeant file (wfile_of written.now) result }
{
    let listed = written.states.as_slice();
    if listed.len() > MAX_STATES {
        return Err(TsFault::TooLarge {
            place: Place::start(file),
        });
    }
    let names = state_table(alloc, listed)?;
    match first_broken(alloc, &names, listed)? {
        Some(broken) => Err(fault_for(broken)),
        None => {
            let name = written.name.copy()?;
            let states = states_meant(alloc, &names, listed)?;
            Ok(Typestate { name, states })
        }
    }
}

// The typestate of a file, or its first fault.
pub(crate) fn read_of(alloc: Global, file: u32, bytes: &[u8]) -> Result<Typestate, TsFault>
    ensures { IsToldOf file bytes.now result }
{
    if bytes.len() > MAX_BYTES {
        return Err(TsFault::TooLarge {
            place: Place::start(file),
        });
    }
    let written = written_in(alloc, file, bytes)?;
    meant_by(alloc, file, &written)
}
