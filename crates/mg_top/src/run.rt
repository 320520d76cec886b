//! The command `run`: the class files of a program are run by one or several roles, each from the
//! `main` of a class.

ghost use Rattle.std.specs.Prelude.{◌≡◌, ◌++◌, ◌∷◌, ◌<◌, ◌^◌, [], length, map, IfOk, OnOk, option_map, string_bytes};
ghost use Rattle.std.specs.List.{IsDistinct, list_any};
ghost use Rattle.std.specs.Str.{bytes_eq};
ghost use Rattle.vm_world_law.specs.Turns.{is_bound, is_broken, is_zero, is_mismatch, is_waiting};
ghost use Rattle.mg_sources.specs.Files.{HaveKinds};
ghost use Rattle.mg_runs.specs.Lines.{kind_word, stand_words, role_line, role_lines};
ghost use Rattle.mg_runs.specs.Runs.{names_of};
ghost use Rattle.mg_words.specs.Words.{Run, limit_of, mains_of, role_names};
ghost use Rattle.mg_top.specs.Commands.{kept_in, role_mains_of, cast_mains_of, prints};
ghost use Rattle.mg_top.specs.Statuses.{status_of};
ghost use Rattle.mg_top.specs.inner.Preparing.{IsCarried};
ghost use Rattle.mg_words.specs.inner.Judging.{asked_of, role_classes_of, IsAsked};

use crate::compile::add_classes;
use mg_compile::ClassFile;
use mg_delivery::{Action, Delivery, Status};
use mg_refusal::Stop;
use mg_runs::{Ran, run_roles};
use mg_text::{BadKind, Bytes, Ending, List, Memory, Text};
use mg_words::{Asked, RoleClass};
use std::alloc::Global;
use vm_world::{RoleMain, RoleRan, Stand};

// The most instructions that a run takes where no number is named.
const STEPS: u32 = 1_000_000;

/// What the run of the roles shows, or the first refusal.
pub fn run(
    alloc: Global,
    asked: &Asked<'_>,
    names: &[Text],
    contents: &[Bytes],
) -> Result<Delivery, Stop>
    requires asked { IsAsked (asked_of asked.now) }
    requires same { length names.now ≡ length contents.now }
    requires count { length contents.now < 2 ^ 32 }
    requires kinds { HaveKinds names.now }
    ensures { IsCarried (Run (asked_of asked.now) names.now) contents.now result }
{
    let mains = mains_of(alloc, asked)?;
    let roles = mains.as_slice();
    let order = asked.order(alloc)?;
    let limit = limit_of(asked);
    let named = asked.is_named();
    let ran = run_roles(
        alloc,
        names,
        contents,
        roles,
        order.as_slice(),
        limit,
        named,
        asked.traced,
    )?;
    Ok(show(alloc, asked, roles, ran)?)
}

/// The roles of the run, each with the class whose `main` it runs.
pub(crate) fn mains_of(alloc: Global, asked: &Asked<'_>) -> Result<List<RoleMain>, Memory>
    requires { IsAsked (asked_of asked.now) }
    ensures items { IfOk result (λ l. l.items ≡ role_mains_of (asked_of asked.now)) }
    ensures distinct { IsDistinct bytes_eq (role_names (mains_of (asked_of asked.now))) }
{
    let classes = asked.mains(alloc)?;
    role_mains(alloc, classes.as_slice())
}

/// The same roles as they are run.
pub(crate) fn role_mains(alloc: Global, classes: &[RoleClass]) -> Result<List<RoleMain>, Memory>
    ensures { IfOk result (λ l. l.items ≡ cast_mains_of (role_classes_of classes.now)) }
{
    let mut mains = List::new(alloc);
    for main in classes {
        let role = main.role.copy()?;
        let class = main.class.copy()?;
        mains.push(RoleMain { role, class })?;
    }
    Ok(mains)
}

/// How many instructions the run may take.
pub(crate) fn limit_of(asked: &Asked<'_>) -> u32
    ensures { result ≡ limit_of (asked_of asked.now) }
{
    match asked.steps {
        Some(steps) => steps,
        None => STEPS,
    }
}

// What is done about a run: its class files are written where a folder is named, then it is put
// what was printed, and then its trace and the lines of its roles. An empty text isn't put.
fn show(alloc: Global, asked: &Asked<'_>, mains: &[RoleMain], ran: Ran) -> Result<Delivery, Memory>
    ensures actions { IfOk result (λ d. d.actions.items ≡ kept_in (asked_of asked.now).folder ran.files.items
        ++ (prints ran.printed ++ Action.Say (ran.trace ++ role_lines (names_of mains.now)
        (map (λ r. r.instructions) ran.roles.items) (map (λ r. r.stand) ran.roles.items)) ∷ [])) }
    ensures status { IfOk result (λ d. d.status ≡ status_of (map (λ r. r.stand) ran.roles.items)) }
{
    let Ran {
        files,
        roles,
        printed,
        trace,
        messages: _messages,
    } = ran;
    let said = said_of(alloc, &trace, mains, roles.as_slice())?;
    let mut actions = List::new(alloc);
    keep(alloc, asked.folder, files.as_slice(), &mut actions)?;
    add_print(printed, &mut actions)?;
    actions.push(Action::Say(said))?;
    Ok(Delivery {
        actions,
        status: status_of(roles.as_slice()),
    })
}

/// Appends that a text is put, unless it is empty.
pub(crate) fn add_print(printed: Bytes, actions: &mut List<Action>) -> Result<(), Memory>
    ensures { OnOk result (actions.new.items ≡ actions.old.items ++ prints printed) }
{
    if printed.is_empty() {
        return Ok(());
    }
    actions.push(Action::Print(printed))
}

// Appends the writes of class files, where a folder is named.
fn keep(
    alloc: Global,
    folder: Option<&Text>,
    files: &[ClassFile],
    actions: &mut List<Action>,
) -> Result<(), Memory>
    ensures { OnOk result (actions.new.items ≡ actions.old.items ++ kept_in (option_map (λ f. f.now) folder.entry) files.now) }
{
    match folder {
        Some(_) => add_classes(alloc, folder, files, actions),
        None => Ok(()),
    }
}

/// The trace of a run, and a line for each of its roles.
pub(crate) fn said_of(
    alloc: Global,
    trace: &Text,
    mains: &[RoleMain],
    roles: &[RoleRan],
) -> Result<Text, Memory>
    ensures { IfOk result (λ t. t ≡ trace.now ++ role_lines (names_of mains.now)
        (map (λ r. r.instructions) roles.now) (map (λ r. r.stand) roles.now)) }
{
    let mut said = String::from_str(alloc, trace.as_str())?;
    push_roles(mains, roles, &mut said)?;
    Ok(Text::from_string(said))
}

// Appends a line for each role.
fn push_roles(mains: &[RoleMain], roles: &[RoleRan], said: &mut String) -> Result<(), Memory>
    ensures { OnOk result (string_bytes said.new ≡ string_bytes said.old ++ role_lines (names_of mains.now)
        (map (λ r. r.instructions) roles.now) (map (λ r. r.stand) roles.now)) }
{
    let mut named = mains;
    let mut rest = roles;
    while let Some((main, others)) = named.split_first() {
        let Some((role, behind)) = rest.split_first() else {
            return Ok(());
        };
        push_role(main.role.as_str(), role, said)?;
        named = others;
        rest = behind;
    }
    Ok(())
}

// Appends the line of a role.
fn push_role(name: &str, role: &RoleRan, said: &mut String) -> Result<(), Memory>
    ensures { OnOk result (string_bytes said.new ≡ string_bytes said.old
        ++ role_line name.now role.now.instructions role.now.stand) }
{
    let instructions = role.instructions;
    said.push_str(name)?;
    write!(said, ": {instructions} instructions, ")?;
    push_stand(&role.stand, said)?;
    said.push_str("\n")?;
    Ok(())
}

// Appends how a role stands, in words.
fn push_stand(stand: &Stand, said: &mut String) -> Result<(), Memory>
    ensures { OnOk result (string_bytes said.new ≡ string_bytes said.old ++ stand_words stand.now) }
{
    match stand {
        Stand::Ended(ending) => push_ending(ending, said),
        Stand::Waits(peer) => push_words(said, "waits ", peer),
        Stand::Bound => {
            said.push_str("bound")?;
            Ok(())
        }
    }
}

// Appends how a role ended, in words.
fn push_ending(ending: &Ending, said: &mut String) -> Result<(), Memory>
    ensures { OnOk result (string_bytes said.new ≡ string_bytes said.old ++ stand_words (Stand.Ended ending.now)) }
{
    match ending {
        Ending::Done => said.push_str("done")?,
        Ending::Zero => said.push_str("zero divisor")?,
        Ending::Null => said.push_str("null")?,
        Ending::Mismatch(peer, found) => {
            push_words(said, "mismatch ", peer)?;
            said.push_str(" ")?;
            said.push_str(found.as_str())?;
        }
        Ending::NoPeer(peer) => push_words(said, "no peer ", peer)?,
        Ending::Bad(kind) => {
            said.push_str("bad ")?;
            said.push_str(kind_word(*kind))?;
        }
    }
    Ok(())
}

// Appends words, and the name behind them.
fn push_words(said: &mut String, words: &str, name: &Text) -> Result<(), Memory>
    ensures { OnOk result (string_bytes said.new ≡ string_bytes said.old ++ (words.now ++ name.now)) }
{
    said.push_str(words)?;
    said.push_str(name.as_str())?;
    Ok(())
}

// What is wrong with code, in a word.
fn kind_word(kind: BadKind) -> &'static str
    ensures { result.now ≡ kind_word kind }
{
    match kind {
        BadKind::FellOff => "FellOff",
        BadKind::Underflow => "Underflow",
        BadKind::Kind => "Kind",
        BadKind::Local => "Local",
        BadKind::Member => "Member",
        BadKind::Return => "Return",
        BadKind::Overflow => "Overflow",
    }
}

/// The status of a run whose roles stand so: the first that applies.
pub(crate) fn status_of(roles: &[RoleRan]) -> Status
    ensures { result ≡ status_of (map (λ r. r.stand) roles.now) }
{
    if any_bound(roles) {
        Status::Bound
    } else if any_broken(roles) {
        Status::Broken
    } else if any_zero(roles) {
        Status::Zero
    } else if any_mismatch(roles) {
        Status::Mismatch
    } else if any_waiting(roles) {
        Status::Waits
    } else {
        Status::Done
    }
}

// Whether a role is at the bound.
fn any_bound(roles: &[RoleRan]) -> bool
    ensures { result ≡ list_any (λ r. is_bound r.stand) roles.now }
{
    roles.iter().any(|role| is_bound(&role.stand))
}

// Whether a role ended at a null, or because its code is wrong.
fn any_broken(roles: &[RoleRan]) -> bool
    ensures { result ≡ list_any (λ r. is_broken r.stand) roles.now }
{
    roles.iter().any(|role| is_broken(&role.stand))
}

// Whether a role ended at a zero divisor.
fn any_zero(roles: &[RoleRan]) -> bool
    ensures { result ≡ list_any (λ r. is_zero r.stand) roles.now }
{
    roles.iter().any(|role| is_zero(&role.stand))
}

// Whether a role ended at a message, or without its peer.
fn any_mismatch(roles: &[RoleRan]) -> bool
    ensures { result ≡ list_any (λ r. is_mismatch r.stand) roles.now }
{
    roles.iter().any(|role| is_mismatch(&role.stand))
}

// Whether a role waits.
fn any_waiting(roles: &[RoleRan]) -> bool
    ensures { result ≡ list_any (λ r. is_waiting r.stand) roles.now }
{
    roles.iter().any(|role| is_waiting(&role.stand))
}

fn is_bound(stand: &Stand) -> bool
    ensures { result ≡ is_bound stand.now }
{
    matches!(stand, Stand::Bound)
}

fn is_waiting(stand: &Stand) -> bool
    ensures { result ≡ is_waiting stand.now }
{
    matches!(stand, Stand::Waits(_))
}

fn is_broken(stand: &Stand) -> bool
    ensures { result ≡ is_broken stand.now }
{
    matches!(stand, Stand::Ended(Ending::Null | Ending::Bad(_)))
}

fn is_zero(stand: &Stand) -> bool
    ensures { result ≡ is_zero stand.now }
{
    matches!(stand, Stand::Ended(Ending::Zero))
}

fn is_mismatch(stand: &Stand) -> bool
    ensures { result ≡ is_mismatch stand.now }
{
    matches!(
        stand,
        Stand::Ended(Ending::Mismatch(_, _) | Ending::NoPeer(_))
    )
}
