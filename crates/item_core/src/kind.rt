//! The kinds of items: one table, of which all that is said of kinds is read.
ghost use Rattle.std.specs.Prelude.{◌≡◌};
ghost use Rattle.item_core.specs.Kind.{first_of, first_text, is_native, second_of, second_text, set_text_of};

use set_core::SetType;
use std::fmt;

/// A kind of item: a kind of function in a type of set, a group of variables created in a type of
/// set, free variables, or a sense with a kind of objective function.
///
/// `V` begins the kinds with a function of several components.
#[derive(Clone, Copy, Debug, PartialEq, Eq)]
pub enum Kind {
    PlainLessThan,
    PlainGreaterThan,
    PlainEqualTo,
    PlainInterval,
    AffineLessThan,
    AffineGreaterThan,
    AffineEqualTo,
    AffineInterval,
    VplainReals,
    VplainZeros,
    VplainNonnegatives,
    VplainNonpositives,
    VplainNormInfinityCone,
    VplainNormOneCone,
    VaffineReals,
    VaffineZeros,
    VaffineNonnegatives,
    VaffineNonpositives,
    VaffineNormInfinityCone,
    VaffineNormOneCone,
    GroupLessThan,
    GroupGreaterThan,
    GroupEqualTo,
    GroupInterval,
    GroupReals,
    GroupZeros,
    GroupNonnegatives,
    GroupNonpositives,
    GroupNormInfinityCone,
    GroupNormOneCone,
    Free,
    MinPlain,
    MinAffine,
    MaxPlain,
    MaxAffine,
}

/// How many kinds there are.
pub const KIND_COUNT: usize = 35;

/// The first word of a kind's name.
#[derive(Clone, Copy, Debug, PartialEq, Eq)]
pub enum FirstWord {
    Plain,
    Affine,
    Vplain,
    Vaffine,
    Group,
    Free,
    Min,
    Max,
}

/// The second word of a kind's name.
#[derive(Clone, Copy, Debug, PartialEq, Eq)]
pub enum SecondWord {
    Of(SetType),
    Plain,
    Affine,
    None,
}

/// What is said of kinds: the words of their names, which of them a solver may support as they
/// are, and which each target supports.
#[derive(Clone, Copy, Debug, PartialEq, Eq)]
pub struct KindTable {
    pub kinds: [Kind; KIND_COUNT],
    pub first: [FirstWord; KIND_COUNT],
    pub second: [SecondWord; KIND_COUNT],
    pub is_native: [bool; KIND_COUNT],
    pub all: [bool; KIND_COUNT],
    pub standard: [bool; KIND_COUNT],
    pub rows: [bool; KIND_COUNT],
    pub cone: [bool; KIND_COUNT],
    pub less: [bool; KIND_COUNT],
}

macro_rules! second_word {
    (-) => {
        SecondWord::None
    };
    (Plain) => {
        SecondWord::Plain
    };
    (Affine) => {
        SecondWord::Affine
    };
    ($set:ident) => {
        SecondWord::Of(SetType::$set)
    };
}

macro_rules! is_said {
    (-) => {
        false
    };
    ($word:ident) => {
        true
    };
}

macro_rules! kind_table {
    ($($kind:ident $first:ident $second:tt
        $native:tt $all:tt $standard:tt $rows:tt $cone:tt $less:tt;)*) => {
        KindTable {
            kinds: [$(Kind::$kind),*],
            first: [$(FirstWord::$first),*],
            second: [$(second_word!($second)),*],
            is_native: [$(is_said!($native)),*],
            all: [$(is_said!($all)),*],
            standard: [$(is_said!($standard)),*],
            rows: [$(is_said!($rows)),*],
            cone: [$(is_said!($cone)),*],
            less: [$(is_said!($less)),*],
        }
    };
}

/// The table of kinds, a row a kind, in order.
pub const KINDS: KindTable = kind_table! {
    PlainLessThan           Plain   LessThan         native all -        rows -    -;
    PlainGreaterThan        Plain   GreaterThan      native all -        rows -    -;
    PlainEqualTo            Plain   EqualTo          native all -        -    -    -;
    PlainInterval           Plain   Interval         -      -   -        -    -    -;
    AffineLessThan          Affine  LessThan         native all -        rows -    less;
    AffineGreaterThan       Affine  GreaterThan      native all -        rows -    -;
    AffineEqualTo           Affine  EqualTo          native all -        rows -    -;
    AffineInterval          Affine  Interval         -      -   -        -    -    -;
    VplainReals             Vplain  Reals            -      -   -        -    -    -;
    VplainZeros             Vplain  Zeros            -      -   -        -    -    -;
    VplainNonnegatives      Vplain  Nonnegatives     -      -   -        -    -    -;
    VplainNonpositives      Vplain  Nonpositives     -      -   -        -    -    -;
    VplainNormInfinityCone  Vplain  NormInfinityCone -      -   -        -    -    -;
    VplainNormOneCone       Vplain  NormOneCone      -      -   -        -    -    -;
    VaffineReals            Vaffine Reals            -      -   -        -    -    -;
    VaffineZeros            Vaffine Zeros            native all standard -    -    -;
    VaffineNonnegatives     Vaffine Nonnegatives     native all -        -    cone -;
    VaffineNonpositives     Vaffine Nonpositives     native all -        -    -    -;
    VaffineNormInfinityCone Vaffine NormInfinityCone -      -   -        -    -    -;
    VaffineNormOneCone      Vaffine NormOneCone      -      -   -        -    -    -;
    GroupLessThan           Group   LessThan         -      -   -        -    -    -;
    GroupGreaterThan        Group   GreaterThan      -      -   -        -    -    -;
    GroupEqualTo            Group   EqualTo          -      -   -        -    -    -;
    GroupInterval           Group   Interval         -      -   -        -    -    -;
    GroupReals              Group   Reals            native all -        rows cone less;
    GroupZeros              Group   Zeros            -      -   -        -    -    -;
    GroupNonnegatives       Group   Nonnegatives     native all standard -    -    -;
    GroupNonpositives       Group   Nonpositives     -      -   -        -    -    -;
    GroupNormInfinityCone   Group   NormInfinityCone -      -   -        -    -    -;
    GroupNormOneCone        Group   NormOneCone      -      -   -        -    -    -;
    Free                    Free    -                -      all -        rows cone less;
    MinPlain                Min     Plain            native all -        -    -    -;
    MinAffine               Min     Affine           native all standard rows cone less;
    MaxPlain                Max     Plain            native all -        -    -    -;
    MaxAffine               Max     Affine           native all -        rows -    -;
};

impl FirstWord {
    pub fn text(self) -> &'static str
        ensures { result.now ≡ first_text self }
    {
        match self {
            FirstWord::Plain => "plain",
            FirstWord::Affine => "affine",
            FirstWord::Vplain => "vplain",
            FirstWord::Vaffine => "vaffine",
            FirstWord::Group => "group",
            FirstWord::Free => "free",
            FirstWord::Min => "min",
            FirstWord::Max => "max",
        }
    }
}

impl SecondWord {
    /// The word, which may be empty.
    pub fn text(self) -> &'static str
        ensures { result.now ≡ second_text self }
    {
        match self {
            SecondWord::Of(set) => set_text(set),
            SecondWord::Plain => "plain",
            SecondWord::Affine => "affine",
            SecondWord::None => "",
        }
    }
}

// The name of a type of set.
fn set_text(set: SetType) -> &'static str
    ensures { result.now ≡ set_text_of set }
{
    match set {
        SetType::LessThan => "LessThan",
        SetType::GreaterThan => "GreaterThan",
        SetType::EqualTo => "EqualTo",
        SetType::Interval => "Interval",
        SetType::Reals => "Reals",
        SetType::Zeros => "Zeros",
        SetType::Nonnegatives => "Nonnegatives",
        SetType::Nonpositives => "Nonpositives",
        SetType::NormInfinityCone => "NormInfinityCone",
        SetType::NormOneCone => "NormOneCone",
    }
}

impl Kind {
    /// The first word of the kind's name.
    pub fn first(self) -> FirstWord
        ensures { result ≡ first_of self }
    {
        KINDS.first[self as usize]
    }

    /// The second word of the kind's name.
    pub fn second(self) -> SecondWord
        ensures { result ≡ second_of self }
    {
        KINDS.second[self as usize]
    }

    /// Whether a solver may support items of the kind as they are.
    pub fn is_native(self) -> bool
        ensures { result ≡ is_native self }
    {
        KINDS.is_native[self as usize]
    }
}

/// As `affine:LessThan`, or `free`.
impl fmt::Display for Kind {
    fn fmt<W: fmt::Write>(&self, f: &mut fmt::Formatter<W>) -> fmt::Result {
        f.write_str(self.first().text())?;
        let second = self.second().text();
        if second.is_empty() {
            return Ok(());
        }
        write!(f, ":{second}")
    }
}
