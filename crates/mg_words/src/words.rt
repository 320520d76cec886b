//! The words of the command line.
//! They are judged from left to right, so that the first that can't follow is known.

ghost use Rattle.std.specs.Prelude.{◌≡◌, ◌≢◌, ◌∷◌, codes, IfOk};
ghost use Rattle.mg_words.specs.Words.{files_of};
ghost use Rattle.mg_words.specs.inner.Judging.{IsJudged, IsPlaced, command_of};

use crate::asked::{Asked, Cast};
use crate::checks::{judge_check, judge_show};
use crate::fits::judge_fit;
use crate::names::{is_file, is_file_name, is_word, other_file, other_source};
use crate::numbers::{number_of, number_up_to};
use crate::runs::{Input, judge_run};
use crate::targets::{Made, judge_targets};
use mg_text::{Memory, Text};
use std::alloc::Global;

// The most branches that a workload may have.
const MOST_BRANCHES: u32 = 400;

/// A command, with the words that it is about.
#[derive(Clone, Copy)]
pub enum Command<'a> {
    /// `translate`, a package where `--package` names one, a folder where `--out` names one, and
    /// the files.
    Translate {
        package_name: Option<&'a Text>,
        folder: Option<&'a Text>,
        files: &'a [Text],
    },
    /// `client`, and the same.
    Client {
        package_name: Option<&'a Text>,
        folder: Option<&'a Text>,
        files: &'a [Text],
    },
    /// `conform`, the file of a protocol and that of the calls.
    Conform {
        files: &'a [Text],
    },
    /// `check`, whether all that is wrong is told, and the files.
    Check {
        all: bool,
        files: &'a [Text],
    },
    /// `compile`, a folder where `--out` names one, and the files.
    Compile {
        folder: Option<&'a Text>,
        files: &'a [Text],
    },
    /// `run`, what is asked for, and the files.
    Run {
        asked: Asked<'a>,
        files: &'a [Text],
    },
    /// `exec`, what is asked for, which names no folder, and the class files.
    Exec {
        asked: Asked<'a>,
        files: &'a [Text],
    },
    /// `refine`, and the files of two typestates.
    Refine {
        files: &'a [Text],
    },
    /// `project`, a folder where `--out` names one, and the file of a global protocol.
    Project {
        folder: Option<&'a Text>,
        files: &'a [Text],
    },
    /// `load`, how many branches the workload has, from 1 to 400, and the number that picks their
    /// order.
    Load {
        branches: u32,
        seed: u64,
    },
    /// `verify`, and the class files.
    Verify {
        files: &'a [Text],
    },
    /// `fit`, the roles, and the files: that of a global protocol, and those of a program.
    Fit {
        cast: Cast<'a>,
        files: &'a [Text],
    },
    /// `show`, and the files.
    Show {
        files: &'a [Text],
    },
}

impl<'a> Command<'a> {
    /// The files that it reads.
    pub fn files(&self) -> &'a [Text]
        ensures { result.now ≡ files_of (command_of self.now) }
    {
        match *self {
            Command::Translate { files, .. } => files,
            Command::Client { files, .. } => files,
            Command::Conform { files } => files,
            Command::Check { files, .. } => files,
            Command::Compile { files, .. } => files,
            Command::Run { files, .. } => files,
            Command::Exec { files, .. } => files,
            Command::Refine { files } => files,
            Command::Project { files, .. } => files,
            Command::Load { .. } => &[],
            Command::Verify { files } => files,
            Command::Fit { files, .. } => files,
            Command::Show { files } => files,
        }
    }
}

/// What the words are.
pub enum Judged<'a> {
    /// This command.
    Known(Command<'a>),
    /// No command: because of this word, or because words are lacking at the end.
    Wrong(Option<&'a Text>),
}

/// Tells which command the words are, or the first word that can't follow those before it.
///
/// # Errors
/// `Memory` only.
pub fn judge(alloc: Global, words: &[Text]) -> Result<Judged<'_>, Memory>
    ensures { IfOk result (IsJudged words.now) }
{
    match words.split_first() {
        Some((command, rest)) => {
            if is_word(command, "fit") {
                judge_fit(alloc, rest)
            } else {
                Ok(judge_other(command, rest))
            }
        }
        None => Ok(Judged::Wrong(None)),
    }
}

// The same of the other commands.
fn judge_other<'a>(command: &'a Text, rest: &'a [Text]) -> Judged<'a>
    requires { command.now ≢ codes "fit" }
    ensures { IsJudged (command.now ∷ rest.now) result }
{
    if is_word(command, "translate") {
        judge_targets(Made::Api, rest)
    } else if is_word(command, "client") {
        judge_targets(Made::Clients, rest)
    } else if is_word(command, "conform") {
        judge_conform(rest)
    } else if is_word(command, "check") {
        judge_check(rest)
    } else if is_word(command, "compile") {
        judge_compile(rest)
    } else if is_word(command, "run") {
        judge_run(Input::Sources, rest)
    } else if is_word(command, "exec") {
        judge_run(Input::Classes, rest)
    } else if is_word(command, "refine") {
        judge_refine(rest)
    } else if is_word(command, "project") {
        judge_project(rest)
    } else if is_word(command, "load") {
        judge_load(rest)
    } else if is_word(command, "verify") {
        judge_verify(rest)
    } else if is_word(command, "show") {
        judge_show(rest)
    } else {
        Judged::Wrong(Some(command))
    }
}

// A folder that words begin with, if they do, and the words behind it.
enum Placed<'a> {
    In(Option<&'a Text>, &'a [Text]),
    // They can't go on: because of this word, or because words are lacking.
    Wrong(Option<&'a Text>),
}

// The folder that `--out` names before files, where it stands first.
fn split_folder(words: &[Text]) -> Placed<'_>
    ensures { IsPlaced words.now result }
{
    let Some((option, rest)) = words.split_first() else {
        return Placed::In(None, words);
    };
    if !is_word(option, "--out") {
        return Placed::In(None, words);
    }
    match rest.split_first() {
        None => Placed::Wrong(None),
        Some((folder, files)) => {
            if is_file_name(folder) {
                Placed::In(Some(folder), files)
            } else {
                Placed::Wrong(Some(folder))
            }
        }
    }
}

// The same of the words behind `conform`.
fn judge_conform(words: &[Text]) -> Judged<'_>
    ensures { IsJudged (codes "conform" ∷ words.now) result }
{
    match words.split_first() {
        None => Judged::Wrong(None),
        Some((protocol, rest)) => {
            if !is_file(protocol, b".scr") {
                return Judged::Wrong(Some(protocol));
            }
            match rest.split_first() {
                None => Judged::Wrong(None),
                Some((calls, surplus)) => {
                    if !is_file_name(calls) {
                        return Judged::Wrong(Some(calls));
                    }
                    match surplus.split_first() {
                        None => Judged::Known(Command::Conform { files: words }),
                        Some((word, _)) => Judged::Wrong(Some(word)),
                    }
                }
            }
        }
    }
}

// The same of the words behind `refine`.
fn judge_refine(words: &[Text]) -> Judged<'_>
    ensures { IsJudged (codes "refine" ∷ words.now) result }
{
    match words.split_first() {
        None => Judged::Wrong(None),
        Some((first, rest)) => {
            if !is_file(first, b".protocol") {
                return Judged::Wrong(Some(first));
            }
            match rest.split_first() {
                None => Judged::Wrong(None),
                Some((second, surplus)) => {
                    if !is_file(second, b".protocol") {
                        return Judged::Wrong(Some(second));
                    }
                    match surplus.split_first() {
                        None => Judged::Known(Command::Refine { files: words }),
                        Some((word, _)) => Judged::Wrong(Some(word)),
                    }
                }
            }
        }
    }
}

// The same of the words behind `project`.
fn judge_project(words: &[Text]) -> Judged<'_>
    ensures { IsJudged (codes "project" ∷ words.now) result }
{
    match split_folder(words) {
        Placed::Wrong(word) => Judged::Wrong(word),
        Placed::In(folder, files) => match files.split_first() {
            None => Judged::Wrong(None),
            Some((file, surplus)) => {
                if !is_file(file, b".scr") {
                    return Judged::Wrong(Some(file));
                }
                match surplus.split_first() {
                    None => Judged::Known(Command::Project { folder, files }),
                    Some((word, _)) => Judged::Wrong(Some(word)),
                }
            }
        },
    }
}

// The same of the words behind `verify`, which are its class files.
fn judge_verify(files: &[Text]) -> Judged<'_>
    ensures { IsJudged (codes "verify" ∷ files.now) result }
{
    if let Some(word) = other_file(files, b".class") {
        return Judged::Wrong(Some(word));
    }
    if files.is_empty() {
        return Judged::Wrong(None);
    }
    Judged::Known(Command::Verify { files })
}

// The same of the words behind `compile`.
fn judge_compile(words: &[Text]) -> Judged<'_>
    ensures { IsJudged (codes "compile" ∷ words.now) result }
{
    match split_folder(words) {
        Placed::Wrong(word) => Judged::Wrong(word),
        Placed::In(folder, files) => {
            if let Some(word) = other_source(files) {
                return Judged::Wrong(Some(word));
            }
            if files.is_empty() {
                return Judged::Wrong(None);
            }
            Judged::Known(Command::Compile { folder, files })
        }
    }
}

// The same of the words behind `load`.
fn judge_load(words: &[Text]) -> Judged<'_>
    ensures { IsJudged (codes "load" ∷ words.now) result }
{
    match words.split_first() {
        None => Judged::Wrong(None),
        Some((first, rest)) => {
            let Some(branches) = number_up_to(first, MOST_BRANCHES) else {
                return Judged::Wrong(Some(first));
            };
            match rest.split_first() {
                None => Judged::Wrong(None),
                Some((second, surplus)) => {
                    let Some(seed) = number_of(second) else {
                        return Judged::Wrong(Some(second));
                    };
                    match surplus.split_first() {
                        None => Judged::Known(Command::Load { branches, seed }),
                        Some((word, _)) => Judged::Wrong(Some(word)),
                    }
                }
            }
        }
    }
}
