//! The families of bridges.

/// A family of bridges: those edges that rewrite items by one formula.
#[derive(Clone, Copy, Debug, PartialEq, Eq)]
pub enum Family {
    GreaterLess,
    OrthantFlip,
    NonposVar,
    ObjFlip,
    Vectorize,
    Scalarize,
    ScalarFunctionize,
    VectorFunctionize,
    VectorizeVar,
    ObjFunctionize,
    SplitSet,
    DropReals,
    ZerosVar,
    FreeVar,
    ScalarSlack,
    VectorSlack,
    Later,
    ObjSlack,
    NormInfinity,
    NormOne,
}

/// How many families there are.
pub const FAMILY_COUNT: usize = 20;
