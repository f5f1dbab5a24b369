// Items of the user's, of each kind that an edge leads from.
ghost use Rattle.std.specs.Prelude.{◌≡◌, [], ◌∷◌, IfOk, false, true};
ghost use Rattle.bridge_face.specs.Law.{IsItemFor};
ghost use Rattle.set_core.specs.Shapes.{is_scalar};
ghost use Rattle.bridge_tests.specs.SampleLaws.{IsSampleSet, IsValidBody, at_variable, here, shifted, three_functions, three_variables};

use aff_core::{Address, Addresses, Aff, Root, VecAff};
use item_core::{Body, Edge, FirstWord, Item, Kind, SecondWord, Sense, kind_of};
use lists::Memory;
use ratio_core::Ratio;
use set_core::{Set, SetType};
use std::alloc::Global;
use test_support::Stop;

/// Where all samples stand.
pub fn place() -> Address
    ensures { result ≡ here }
{
    Address::root(Root::Row, 7)
}

/// The fraction, or 0 where it has no value.
pub fn ratio(n: i128, d: i128) -> Ratio {
    Ratio::new(n, d).unwrap_or(Ratio::zero())
}

/// An item that the edge leads from, with this number in its functions and its set.
pub fn sample(alloc: Global, edge: Edge, number: Ratio) -> Result<Item, Stop>
    ensures suits { IfOk result (IsItemFor edge) }
    ensures at { IfOk result (λ item. item.at ≡ here) }
{
    let source = edge.entry().source;
    let body = body(alloc, source, number)?;
    let item = Item { at: place(), body };
    if kind_of(&item) == source {
        return Ok(item);
    }
    drop(item);
    Err(Stop)
}

// A body by the words of its kind: an affine objective where they name no set and no variable.
fn body(alloc: Global, kind: Kind, number: Ratio) -> Result<Body, Memory>
    ensures { IfOk result IsValidBody }
{
    let first = kind.first();
    match kind.second() {
        SecondWord::Of(set) => {
            let set = sample_set(set, number);
            if set.is_scalar() {
                return of_one(alloc, first, set, number);
            }
            of_three(alloc, first, set, number)
        }
        SecondWord::Plain => Ok(Body::PlainObj {
            sense: sense_of(first),
            var: variable(0),
        }),
        _ => Ok(Body::AffineObj {
            sense: sense_of(first),
            func: function(alloc, 0, number)?,
        }),
    }
}

fn sense_of(first: FirstWord) -> Sense {
    match first {
        FirstWord::Max => Sense::Max,
        _ => Sense::Min,
    }
}

// A set for one number, or for vectors of three.
fn sample_set(set: SetType, number: Ratio) -> Set
    ensures { IsSampleSet result }
{
    match set {
        SetType::LessThan => Set::LessThan { upper: number },
        SetType::GreaterThan => Set::GreaterThan { lower: number },
        SetType::EqualTo => Set::EqualTo { value: number },
        SetType::Interval => Set::Interval {
            lower: Ratio::zero(),
            upper: Ratio::one(),
        },
        SetType::Reals => Set::Reals { dimension: 3 },
        SetType::Zeros => Set::Zeros { dimension: 3 },
        SetType::Nonnegatives => Set::Nonnegatives { dimension: 3 },
        SetType::Nonpositives => Set::Nonpositives { dimension: 3 },
        SetType::NormInfinityCone => Set::NormInfinityCone { dimension: 3 },
        SetType::NormOneCone => Set::NormOneCone { dimension: 3 },
    }
}

// A row of one number, or a group where the word is no function's.
fn of_one(alloc: Global, first: FirstWord, set: Set, number: Ratio) -> Result<Body, Memory>
    requires scalar { is_scalar set ≡ true }
    requires sample { IsSampleSet set }
    ensures { IfOk result IsValidBody }
{
    match first {
        FirstWord::Plain => Ok(Body::Plain {
            var: variable(0),
            set,
        }),
        FirstWord::Affine => Ok(Body::Affine {
            func: function(alloc, 0, number)?,
            set,
        }),
        _ => Ok(Body::Group {
            set,
            vars: one_variable(alloc)?,
        }),
    }
}

// A row of three numbers, or a group.
fn of_three(alloc: Global, first: FirstWord, set: Set, number: Ratio) -> Result<Body, Memory>
    requires vector { is_scalar set ≡ false }
    requires sample { IsSampleSet set }
    ensures { IfOk result IsValidBody }
{
    match first {
        FirstWord::Vplain => Ok(Body::PlainVec {
            vars: variables(alloc)?,
            set,
        }),
        FirstWord::Vaffine => Ok(Body::AffineVec {
            func: functions(alloc, number)?,
            set,
        }),
        _ => Ok(Body::Group {
            set,
            vars: variables(alloc)?,
        }),
    }
}

// The n-th variable.
fn variable(n: u32) -> Address
    ensures { result ≡ at_variable n }
{
    Address::root(Root::Variable, n)
}

fn one_variable(alloc: Global) -> Result<Addresses, Memory>
    ensures { IfOk result (λ vars. vars ≡ at_variable 0 ∷ []) }
{
    Ok(Addresses::from_vec(Vec::from_slice(alloc, &[variable(0)])?))
}

fn variables(alloc: Global) -> Result<Addresses, Memory>
    ensures { IfOk result (λ vars. vars ≡ three_variables) }
{
    let vars = [variable(0), variable(1), variable(2)];
    Ok(Addresses::from_vec(Vec::from_slice(alloc, &vars)?))
}

// The n-th variable with a number added.
fn function(alloc: Global, n: u32, number: Ratio) -> Result<Aff, Memory>
    ensures { IfOk result (λ func. func ≡ shifted n number) }
{
    let plain = Aff::variable(alloc, &variable(n))?;
    let func = plain.with_constant(number);
    drop(plain);
    func
}

fn functions(alloc: Global, number: Ratio) -> Result<VecAff, Memory>
    ensures { IfOk result (λ funcs. funcs ≡ three_functions number) }
{
    let mut funcs = Vec::new(alloc);
    funcs.push(function(alloc, 0, number)?)?;
    funcs.push(function(alloc, 1, number)?)?;
    funcs.push(function(alloc, 2, number)?)?;
    Ok(VecAff::from_vec(funcs))
}
