//! Reads a file of calls: each line is empty, a comment, or a call of a method.
//! A call may name the label that the method answers with.
#![tactic(auto)]

ghost use Rattle.std.specs.Prelude.{◌≡◌, ◌≤◌, length, option_map};
ghost use Rattle.mg_read.specs.Passes.{span};
ghost use Rattle.mg_read.specs.Letters.{not_line_end};
ghost use Rattle.mg_calls.specs.Answer.{IsRead, rest_behind};

mod line;

use crate::line::{Said, read_line};
use mg_text::{List, Memory, Place};
use std::alloc::Global;

/// Bytes that a file of calls may hold.
pub const MAX_BYTES: usize = 1_048_576;

/// A call, with the number of its line, which counts from 1.
#[derive(Clone, Copy)]
pub struct CallLine<'a> {
    pub line: u32,
    pub method: &'a str,
    pub answer: Option<&'a str>,
}

/// Why a file holds no calls.
#[derive(Clone, Copy)]
pub enum CallsFault {
    /// The file holds over 1,048,576 bytes. The place is the file's start.
    TooLarge { place: Place },
    /// A line is neither empty, nor a comment, nor a call. The place is the first such line's start.
    BadLine { place: Place },
    /// Want of memory.
    Memory,
}

impl From<Memory> for CallsFault {
    ghost use Rattle.std.specs.Prelude.{◌≡◌};
    ghost use Rattle.mg_calls.specs.declared.CallsFault.TheVariants as E;

    ghost from_gives = { λ _ e. e ≡ E.Memory };

    fn from(_memory: Memory) -> CallsFault {
        CallsFault::Memory
    }
}

/// Reads the calls of a file, in the order of its lines.
pub fn read_calls<'a>(
    alloc: Global,
    file: u32,
    bytes: &'a [u8],
) -> Result<List<CallLine<'a>>, CallsFault>
    ensures { IsRead file bytes.now result }
{
    if bytes.len() > MAX_BYTES {
        let place = Place::start(file);
        return Err(CallsFault::TooLarge { place });
    }
    let mut calls = List::new(alloc);
    let mut rest = Some(bytes);
    let mut line: u32 = 1;
    while let Some(text) = rest {
        let end = line_end(text);
        match read_line(&text[..end]) {
            Said::Nothing => {}
            Said::Call(method, answer) => {
                calls.push(CallLine {
                    line,
                    method,
                    answer,
                })?;
            }
            Said::Bad => {
                let place = Place {
                    file,
                    line,
                    column: 1,
                };
                return Err(CallsFault::BadLine { place });
            }
        }
        rest = behind(text, end);
        line += 1;
    }
    Ok(calls)
}

// How many bytes stand before the first line feed.
fn line_end(bytes: &[u8]) -> usize
    ensures value { result ≡ span not_line_end bytes.now }
    ensures bound { result ≤ length bytes.now }
{
    bytes.iter().take_while(|byte| **byte != b'\n').count()
}

// What stands behind a line and its line feed, or None where the line has none.
fn behind(bytes: &[u8], end: usize) -> Option<&[u8]>
    requires { end ≤ length bytes.now }
    ensures { option_map (λ b. b.now) result ≡ rest_behind end bytes.now }
{
    if end < bytes.len() {
        Some(&bytes[end + 1..])
    } else {
        None
    }
}
