//! What instructions take of the operands, and what they give then, where they do nothing else.

ghost use Rattle.std.specs.Prelude.{◌≡◌, option_to_list};
ghost use Rattle.cls_rows.specs.Trades.{built_wants, built_kinds, constant_kind, plain_wants, plain_kinds};

use crate::want::Want;
use cls_kinds::Kind;
use vm_actions::{Constant, Plain, Sort};
use vm_model::Built;

const INT: Want = Want::Sorted(Sort::Number);

const REFERENCE: Want = Want::Sorted(Sort::Reference);

const TEXT: Want = Want::Of(Kind::TEXT);

const OBJECT: Want = Want::Of(Kind::OBJECT);

const STREAM: Want = Want::Of(Kind::STREAM);

/// The operands that are taken, the topmost last, and the kind that is given, if one is.
#[derive(Clone, Copy)]
pub(crate) struct Trade {
    pub(crate) takes: &'static [Want],
    pub(crate) gives: Option<Kind>,
}

/// What a member of a built-in class takes and gives.
pub(crate) fn built_trade(built: Built) -> Trade
    ensures takes { result.takes.now ≡ built_wants built }
    ensures gives { option_to_list result.gives ≡ built_kinds built }
{
    match built {
        Built::Init => Trade {
            takes: &[OBJECT],
            gives: None,
        },
        Built::Concat | Built::TakeText => Trade {
            takes: &[TEXT, TEXT],
            gives: Some(Kind::TEXT),
        },
        Built::Equals => Trade {
            takes: &[TEXT, OBJECT],
            gives: Some(Kind::INT),
        },
        Built::ValueOfInt | Built::ValueOfTruth => Trade {
            takes: &[INT],
            gives: Some(Kind::TEXT),
        },
        Built::Out => Trade {
            takes: &[],
            gives: Some(Kind::STREAM),
        },
        Built::Println => Trade {
            takes: &[STREAM, TEXT],
            gives: None,
        },
        Built::Send | Built::Take | Built::Refuse => Trade {
            takes: &[TEXT, TEXT],
            gives: None,
        },
        Built::SendInt | Built::SendTruth => Trade {
            takes: &[TEXT, TEXT, INT],
            gives: None,
        },
        Built::SendText => Trade {
            takes: &[TEXT, TEXT, TEXT],
            gives: None,
        },
        Built::Look => Trade {
            takes: &[TEXT],
            gives: Some(Kind::TEXT),
        },
        Built::TakeInt | Built::TakeTruth => Trade {
            takes: &[TEXT, TEXT],
            gives: Some(Kind::INT),
        },
    }
}

/// The kind of a value that stands in the code.
fn kind_of_constant(constant: Constant<'_>) -> Kind
    ensures { result ≡ constant_kind constant.entry }
{
    match constant {
        Constant::Int(_) => Kind::INT,
        Constant::Text(_) => Kind::TEXT,
        Constant::Null => Kind::NULL,
    }
}

/// What an instruction takes and gives that stays in its frame, and does nothing else.
pub(crate) fn plain_trade(plain: Plain<'_>) -> Trade
    ensures takes { result.takes.now ≡ plain_wants plain.entry }
    ensures gives { option_to_list result.gives ≡ plain_kinds plain.entry }
{
    match plain {
        Plain::Push(constant) => Trade {
            takes: &[],
            gives: Some(kind_of_constant(constant)),
        },
        Plain::Pop => Trade {
            takes: &[Want::Any],
            gives: None,
        },
        Plain::Compute(_) => Trade {
            takes: &[INT, INT],
            gives: Some(Kind::INT),
        },
        Plain::Negate => Trade {
            takes: &[INT],
            gives: Some(Kind::INT),
        },
        Plain::IfZero(_, _) | Plain::Switch { .. } => Trade {
            takes: &[INT],
            gives: None,
        },
        Plain::IfBoth(_, _) => Trade {
            takes: &[INT, INT],
            gives: None,
        },
        Plain::IfNull(_, _) => Trade {
            takes: &[REFERENCE],
            gives: None,
        },
        Plain::Load(_, _)
        | Plain::Store(_, _)
        | Plain::Double
        | Plain::Swap
        | Plain::Increase(_, _)
        | Plain::Go(_) => Trade {
            takes: &[],
            gives: None,
        },
    }
}
