//! The first limit that a part of a class exceeds.

ghost use Rattle.std.specs.Prelude.{◌≡◌, drop, option_map};
ghost use Rattle.std.specs.List.{list_any};
ghost use Rattle.gen_rules.specs.Limits.{is_long, exceeded};
ghost use Rattle.gen_members.specs.ToldLimits.{limit_of};

use crate::texts::has_long;
use gen_pool::Pool;

/// What is too large, in the order in which it is told.
#[derive(Clone, Copy, PartialEq, Eq)]
pub(crate) enum Limit {
    /// Over 32,767 bytes of code.
    CodeTooLong,
    /// Over 255 locals.
    TooManyLocals,
    /// Over 65,534 constants in the pool.
    PoolFull,
    /// A text of over 65,535 bytes in modified UTF-8.
    TextTooLong,
}

const MOST_CODE: usize = 32767;

const MOST_LOCALS: u32 = 255;

const MOST_CONSTANTS: usize = 65534;

/// Whether a text is too long behind the first `old` constants of a pool.
#[tactic(auto, using(crate::proofs::Judging::nothing_behind))]
fn has_long_behind(pool: &Pool, old: usize) -> bool
    ensures { result ≡ list_any is_long (drop old pool.now) }
{
    let entries = pool.entries();
    if old < entries.len() {
        return has_long(&entries[old..]);
    }
    false
}

/// The first limit that is exceeded by code of so many bytes with so many locals, by the pool, or
/// by a text behind its first `old` constants.
pub(crate) fn first_exceeded(
    code_size: usize,
    locals: u32,
    pool: &Pool,
    old: usize,
) -> Option<Limit>
    ensures { option_map limit_of result ≡ exceeded code_size locals pool.now (drop old pool.now) }
{
    if code_size > MOST_CODE {
        return Some(Limit::CodeTooLong);
    }
    if locals > MOST_LOCALS {
        return Some(Limit::TooManyLocals);
    }
    if pool.len() > MOST_CONSTANTS {
        return Some(Limit::PoolFull);
    }
    if has_long_behind(pool, old) {
        return Some(Limit::TextTooLong);
    }
    None
}
