//! Which argument has a wrong type.

ghost use Rattle.std.specs.Prelude.{◌≡◌, ◌≤◌, option_map, map, slice_get, Some, None, length};
ghost use Rattle.jv_tree.specs.View.{expr_of, exprs_of};
ghost use Rattle.jv_types.specs.inner.View.{type_seen};
ghost use Rattle.jv_types.specs.inner.Judging.{at_place, args_misfit};
ghost use Rattle.jv_types.specs.inner.Signatures.{params_seen};
ghost use Rattle.jv_types.specs.Tables.{program_in};

use crate::name_table::Table;
use crate::operands::misfit;
use crate::signature::Params;
use crate::value_type::{ValueType, meant, plain_type};
use jv_tree::Expr;
use mg_text::Place;

/// The type of the parameter at an index.
#[tactic(auto, using(crate::proofs::AtIndex::params))]
pub(crate) fn param_at<'a>(
    table: &Table<'_>,
    params: Params<'a>,
    index: usize,
) -> Option<ValueType<'a>>
    ensures { option_map type_seen result ≡ slice_get (params_seen (program_in table.now) params.entry) index }
{
    match params {
        Params::Declared(declared) => match declared.get(index) {
            Some(param) => Some(meant(table, &param.ty)),
            None => None,
        },
        Params::Plain(plain) => match plain.get(index) {
            Some(param) => Some(plain_type(*param)),
            None => None,
        },
    }
}

/// How many parameters there are.
pub(crate) fn count_of(table: &Table<'_>, params: Params<'_>) -> usize
    ensures { result ≡ length (params_seen (program_in table.now) params.entry) }
{
    match params {
        Params::Declared(declared) => declared.len(),
        Params::Plain(plain) => plain.len(),
    }
}

/// The place of the first argument of a wrong type, of arguments of these types.
pub(crate) fn args_misfit(
    table: &Table<'_>,
    params: Params<'_>,
    args: &[Expr],
    types: &[ValueType<'_>],
) -> Option<Place>
    requires { length types.now ≡ length args.now }
    ensures { option_map at_place result ≡ args_misfit (exprs_of (map expr_of args.now)) (params_seen (program_in table.now) params.entry)
        (map type_seen types.now) }
{
    for (i, arg) in args.iter().enumerate() {
        match param_at(table, params, i) {
            None => return None,
            Some(taken) => {
                if let Some(place) = misfit(taken, arg, types[i]) {
                    return Some(place);
                }
            }
        }
    }
    None
}
