//! The kinds of the user's items as they are bridged, by a map's marks of the variables that are kept.
ghost use Rattle.std.specs.Prelude.{◌≡◌, cond};
ghost use Rattle.std.specs.List.{list_all};
ghost use Rattle.found_plan.specs.Read.{is_marked};
ghost use Rattle.fresh_bridging.specs.ModelImage.{row_item};
ghost use Rattle.item_core.specs.KindOf as kinds;
ghost use Rattle.model_bridging.specs.Kinds.{is_plain_by, kind_by, objective_kind_by};

use address_map::AddressMap;
use aff_core::{Address, Sense};
use item_core::{Kind, affine_kind, plain_kind};
use set_core::Set;
use user_model::{Row, UserFunc};

pub(crate) fn row_kind(map: &AddressMap, row: &Row) -> Kind
    ensures { result ≡ kind_by (is_marked map.now) (row_item row.now).body }
{
    function_kind(is_plain(map, &row.func), &row.set)
}

// The kind of an objective that is a plain variable, or another function.
pub(crate) fn objective_kind(sense: Sense, plain: bool) -> Kind
    ensures { result ≡ objective_kind_by sense plain }
{
    match (sense, plain) {
        (Sense::Min, true) => Kind::MinPlain,
        (Sense::Min, false) => Kind::MinAffine,
        (Sense::Max, true) => Kind::MaxPlain,
        (Sense::Max, false) => Kind::MaxAffine,
    }
}

// The kind of plain variables, or of another function, in a set.
fn function_kind(plain: bool, set: &Set) -> Kind
    ensures { result ≡ cond plain (kinds.plain_kind_of set.now) (kinds.affine_kind_of set.now) }
{
    if plain {
        plain_kind(set)
    } else {
        affine_kind(set)
    }
}

// Whether a function names variables, all of which are kept.
fn is_plain(map: &AddressMap, func: &UserFunc) -> bool
    ensures { result ≡ is_plain_by (is_marked map.now) func.now }
{
    match func {
        UserFunc::Plain(var) => map.is_kept(var),
        UserFunc::PlainVec(vars) => are_kept(map, vars.as_slice()),
        UserFunc::Affine(_) | UserFunc::AffineVec(_) => false,
    }
}

fn are_kept(map: &AddressMap, vars: &[Address]) -> bool
    ensures { result ≡ list_all (is_marked map.now) vars.now }
{
    vars.iter().all(|var| map.is_kept(var))
}
