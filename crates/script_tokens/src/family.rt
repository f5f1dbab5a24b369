//! The names of the families of bridges.
ghost use Rattle.std.specs.Prelude.{◌≡◌, Some};
ghost use Rattle.item_core.specs.declared.family.Family.{Family};
ghost use Rattle.script_tokens.specs.Family.{family_of, family_text};

use crate::is;
use item_core::{FAMILY_COUNT, Family};

macro_rules! families {
    ($($family:ident)*) => {
        [$(Family::$family),*]
    };
}

/// The families, in order.
pub const FAMILIES: [Family; FAMILY_COUNT] = families! {
    GreaterLess OrthantFlip NonposVar ObjFlip Vectorize Scalarize ScalarFunctionize
    VectorFunctionize VectorizeVar ObjFunctionize SplitSet DropReals ZerosVar FreeVar ScalarSlack
    VectorSlack Later ObjSlack NormInfinity NormOne
};

/// The name of a family.
pub fn family_text(family: Family) -> &'static str
    ensures { result.now ≡ family_text family }
{
    match family {
        Family::GreaterLess => "GreaterLess",
        Family::OrthantFlip => "OrthantFlip",
        Family::NonposVar => "NonposVar",
        Family::ObjFlip => "ObjFlip",
        Family::Vectorize => "Vectorize",
        Family::Scalarize => "Scalarize",
        Family::ScalarFunctionize => "ScalarFunctionize",
        Family::VectorFunctionize => "VectorFunctionize",
        Family::VectorizeVar => "VectorizeVar",
        Family::ObjFunctionize => "ObjFunctionize",
        Family::SplitSet => "SplitSet",
        Family::DropReals => "DropReals",
        Family::ZerosVar => "ZerosVar",
        Family::FreeVar => "FreeVar",
        Family::ScalarSlack => "ScalarSlack",
        Family::VectorSlack => "VectorSlack",
        Family::Later => "Later",
        Family::ObjSlack => "ObjSlack",
        Family::NormInfinity => "NormInfinity",
        Family::NormOne => "NormOne",
    }
}

/// The family with this name. The name of each family is read.
#[tactic(auto, unfolding(crate::specs::Family::family_of))]
pub fn read_family(token: &[u8]) -> Option<Family>
    ensures value { result ≡ family_of token.now }
    ensures reads_back { (family : Family) → family_of (family_text family) ≡ Some family }
{
    FAMILIES
        .iter()
        .copied()
        .find(|family| is(token, family_text(*family)))
}
