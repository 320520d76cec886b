//! The options of a run, one after the other: which can follow those before it, and what is asked for with it.

ghost use Rattle.std.specs.Prelude.{◌≡◌, ◌≢◌, ◌↔◌, IsTrue, true, All};
ghost use Rattle.mg_words.specs.Words.{role_names};
ghost use Rattle.scr_tree.specs.Words.{IsName};
ghost use Rattle.mg_words.specs.inner.Judging.{asked_of, IsNamed, IsStep, IsWith, can_follow, are_whole, lacks_role, is_wanted, names_in};
ghost use Rattle.mg_words.specs.inner.Judging.{roles_in};
ghost use Rattle.mg_words.specs.declared.options.Named.TheVariants as named;

use crate::asked::Asked;
use crate::names::{is_file_name, is_name, is_word};
use crate::numbers::number_up_to;
use crate::roles::{first_name, has_role, names_each, names_it, names_only, next_role, role_of};
use mg_text::Text;

// The most instructions that a run may be asked for.
const MOST_STEPS: u32 = 20_000_000;

/// An option of a run, by its word.
#[derive(Clone, Copy)]
pub enum Named {
    Main,
    Role,
    Order,
    Steps,
    Trace,
    Out,
}

/// What reading one more option gives.
pub enum Step<'a> {
    /// What is asked for with it, but for the words, and the words behind it.
    More(Asked<'a>, &'a [Text]),
    /// It can follow, but can't be read: because of this word, or because its value is lacking.
    Stuck(Option<&'a Text>),
    /// It can't follow.
    Barred,
}

/// The option that a word is.
pub fn option_named(word: &Text) -> Option<Named>
    ensures { IsNamed word.now result }
{
    if is_word(word, "--main") {
        Some(Named::Main)
    } else if is_word(word, "--role") {
        Some(Named::Role)
    } else if is_word(word, "--order") {
        Some(Named::Order)
    } else if is_word(word, "--steps") {
        Some(Named::Steps)
    } else if is_word(word, "--trace") {
        Some(Named::Trace)
    } else if is_word(word, "--out") {
        Some(Named::Out)
    } else {
        None
    }
}

/// Whether the options can be all: a class or a role was named, and each that the order names.
pub fn is_whole(asked: &Asked<'_>) -> bool
    ensures { result ≡ are_whole (asked_of asked.now).roles (asked_of asked.now).order }
{
    if asked.class.is_some() {
        return true;
    }
    match asked.order {
        Some(order) => names_only(order.as_str(), asked.words),
        None => next_role(asked.words).is_some(),
    }
}

/// Reads an option whose word stands before these words.
pub fn read_option<'a>(asked: Asked<'a>, option: Named, words: &'a [Text]) -> Step<'a>
    ensures { IsStep asked.entry option words.now result }
{
    match option {
        Named::Role => read_role(asked, words),
        Named::Trace => read_trace(asked, words),
        _ => read_value(asked, option, words),
    }
}

// The same of a role. Whether any role can follow is asked only where this one can't, since that goes over each name of the order.
fn read_role<'a>(asked: Asked<'a>, words: &'a [Text]) -> Step<'a>
    ensures { IsStep asked.entry named.Role words.now result }
{
    if let Some((value, rest)) = words.split_first() {
        if let Some(more) = with_role(asked, value) {
            return Step::More(more, rest);
        }
    }
    if !can_follow(&asked, Named::Role) {
        return Step::Barred;
    }
    Step::Stuck(words.first())
}

// The same of the trace, which has no value.
fn read_trace<'a>(asked: Asked<'a>, words: &'a [Text]) -> Step<'a>
    ensures { IsStep asked.entry named.Trace words.now result }
{
    if asked.traced {
        return Step::Barred;
    }
    let more = Asked {
        traced: true,
        ..asked
    };
    Step::More(more, words)
}

// The same of the other options.
fn read_value<'a>(asked: Asked<'a>, option: Named, words: &'a [Text]) -> Step<'a>
    requires role { option ≢ named.Role }
    requires trace { option ≢ named.Trace }
    ensures { IsStep asked.entry option words.now result }
{
    if !can_follow(&asked, option) {
        return Step::Barred;
    }
    match words.split_first() {
        None => Step::Stuck(None),
        Some((value, rest)) => match with_value(asked, option, value) {
            Some(more) => Step::More(more, rest),
            None => Step::Stuck(Some(value)),
        },
    }
}

// Whether an option of this word can follow.
fn can_follow(asked: &Asked<'_>, option: Named) -> bool
    ensures { result ≡ can_follow (asked_of asked.now) option }
{
    match option {
        Named::Main => asked.class.is_none()
            && asked.order.is_none()
            && next_role(asked.words).is_none(),
        Named::Role => asked.class.is_none() && lacks_role(asked),
        Named::Order => asked.class.is_none() && asked.order.is_none(),
        Named::Steps => asked.steps.is_none(),
        Named::Trace => !asked.traced,
        Named::Out => asked.folder.is_none(),
    }
}

// Whether there is no order, or it names a role that wasn't named before.
fn lacks_role(asked: &Asked<'_>) -> bool
    ensures { result ≡ lacks_role (role_names (roles_in asked.now.words.now)) (asked_of asked.now).order }
{
    match asked.order {
        Some(order) => !names_only(order.as_str(), asked.words),
        None => true,
    }
}

// What is asked for with one more option, whose value this word is, if it may be.
fn with_value<'a>(asked: Asked<'a>, option: Named, value: &'a Text) -> Option<Asked<'a>>
    requires role { option ≢ named.Role }
    requires trace { option ≢ named.Trace }
    requires free { can_follow (asked_of asked) option ≡ true }
    ensures { IsWith asked.entry option value.now result }
{
    match option {
        Named::Main => with_class(asked, value),
        Named::Order => with_order(asked, value),
        Named::Steps => with_steps(asked, value),
        Named::Out => with_folder(asked, value),
        Named::Role | Named::Trace => None,
    }
}

// The same of a class of this name.
fn with_class<'a>(asked: Asked<'a>, value: &'a Text) -> Option<Asked<'a>>
    requires { can_follow (asked_of asked) named.Main ≡ true }
    ensures { IsWith asked.entry named.Main value.now result }
{
    if !is_name(value.as_str()) {
        return None;
    }
    Some(Asked {
        class: Some(value),
        ..asked
    })
}

// The same of a role and its class, which the word names.
fn with_role<'a>(asked: Asked<'a>, value: &'a Text) -> Option<Asked<'a>>
    ensures { IsWith asked.entry named.Role value.now result }
{
    let named = role_of(value);
    if asked.class.is_some() {
        return None;
    }
    if !is_name(named.role) {
        return None;
    }
    if !is_name(named.class) {
        return None;
    }
    if has_role(asked.words, named.role) {
        return None;
    }
    if !is_wanted(&asked, named.role) {
        return None;
    }
    Some(asked)
}

// Whether there is no order, or it names this role.
fn is_wanted(asked: &Asked<'_>, role: &str) -> bool
    ensures { result ≡ is_wanted (asked_of asked.now).order role.now }
{
    match asked.order {
        Some(order) => names_it(order.as_str(), role),
        None => true,
    }
}

// The same of an order of these names.
fn with_order<'a>(asked: Asked<'a>, value: &'a Text) -> Option<Asked<'a>>
    requires { can_follow (asked_of asked) named.Order ≡ true }
    ensures { IsWith asked.entry named.Order value.now result }
{
    let word = value.as_str();
    if !are_names(word) {
        return None;
    }
    if !names_each(word, asked.words) {
        return None;
    }
    Some(Asked {
        order: Some(value),
        ..asked
    })
}

// Whether each part of a word between `,` is a name.
fn are_names(word: &str) -> bool
    ensures { IsTrue result ↔ All IsName (names_in word.now) }
{
    let mut left = Some(word);
    while let Some(text) = left {
        let (name, behind) = first_name(text);
        if !is_name(name) {
            return false;
        }
        left = behind;
    }
    true
}

// The same of a number, which this word names, if it may.
fn with_steps<'a>(asked: Asked<'a>, value: &'a Text) -> Option<Asked<'a>>
    requires { can_follow (asked_of asked) named.Steps ≡ true }
    ensures { IsWith asked.entry named.Steps value.now result }
{
    match number_up_to(value, MOST_STEPS) {
        None => None,
        Some(steps) => Some(Asked {
            steps: Some(steps),
            ..asked
        }),
    }
}

// The same of a folder of this name, if it may be one.
fn with_folder<'a>(asked: Asked<'a>, value: &'a Text) -> Option<Asked<'a>>
    requires { can_follow (asked_of asked) named.Out ≡ true }
    ensures { IsWith asked.entry named.Out value.now result }
{
    if !is_file_name(value) {
        return None;
    }
    Some(Asked {
        folder: Some(value),
        ..asked
    })
}
