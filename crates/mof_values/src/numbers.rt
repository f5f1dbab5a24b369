//! Numbers.
ghost use Rattle.std.specs.Prelude.{◌≡◌, ◌<◌, ◌^◌, option_and_then, option_map, unsigned_abs};
ghost use Rattle.ratio_core.specs.Rational.{whole_ℚ};
ghost use Rattle.serde_json.specs.Find.{as_integer};
ghost use Rattle.serde_json.specs.View.{number_view, view};
ghost use Rattle.mof_values.specs.Values.{a_number, an_integer, index_in, number_of, unsigned_32, walk_at};
ghost use Rattle.mof_values.specs.Walked.{MeetsWalk};

use crate::fault::{MofFault, here};
use crate::fields::{at_key, field};
use ratio_core::Ratio;
use serde_json::{Number, Value};
use std::alloc::Global;

// A whole number, or a text that reads as a literal.
#[tactic(auto, unfolding(crate::specs::Values::number_of))]
fn number_of(value: &Value) -> Option<Ratio>
    ensures { result ≡ number_of (view value.now) }
{
    match value.as_str() {
        Some(text) => Ratio::read(text.as_bytes()),
        None => whole_number(value.as_number()?),
    }
}

fn whole_number(number: &Number) -> Option<Ratio>
    ensures { result ≡ option_map whole_ℚ (as_integer (number_view number.now)) }
{
    match number.as_u64() {
        Some(n) => Some(whole(i128::from(n))),
        None => Some(whole(i128::from(number.as_i64()?))),
    }
}

// A number of 65 bits.
fn whole(number: i128) -> Ratio
    requires { unsigned_abs number < 2 ^ 64 }
    ensures { result ≡ whole_ℚ number }
{
    match Ratio::new(number, 1) {
        Ok(whole) => whole,
        Err(_) => unreachable!(),
    }
}

/// The value has to be a number.
#[tactic(auto, unfolding(crate::specs::Values::a_number))]
pub fn number(alloc: Global, value: &Value) -> Result<Ratio, MofFault>
    ensures { MeetsWalk (λ number. number) result (a_number (view value.now)) }
{
    match number_of(value) {
        Some(number) => Ok(number),
        None => Err(MofFault::BadNumber { place: here(alloc) }),
    }
}

/// The number at a key.
#[tactic(auto, using(crate::specs::WalkLaws::walk_at_steps))]
pub fn number_field(alloc: Global, name: &str, value: &Value) -> Result<Ratio, MofFault>
    ensures { MeetsWalk (λ number. number) result (walk_at a_number name.now (view value.now)) }
{
    let found = field(alloc, name, value)?;
    at_key(alloc, name, number(alloc, found))
}

// A whole number from 0 to 4,294,967,295.
#[tactic(auto, unfolding(crate::specs::Values::index_in))]
fn index_in(number: &Ratio) -> Option<u32>
    ensures { result ≡ index_in number.now }
{
    if number.den() == 1 {
        unsigned_32(number.num())
    } else {
        None
    }
}

fn unsigned_32(number: i128) -> Option<u32>
    ensures { result ≡ unsigned_32 number }
{
    if number < 0 || number > i128::from(u32::MAX) {
        None
    } else {
        Some(number as u32)
    }
}

/// The value has to be a whole number from 0 to 4,294,967,295.
#[tactic(auto, unfolding(crate::specs::Values::an_integer))]
pub fn integer(alloc: Global, value: &Value) -> Result<u32, MofFault>
    ensures { MeetsWalk (λ number. number) result (an_integer (view value.now)) }
{
    match integer_of(value) {
        Some(number) => Ok(number),
        None => Err(MofFault::Shape { place: here(alloc) }),
    }
}

fn integer_of(value: &Value) -> Option<u32>
    ensures { result ≡ option_and_then index_in (number_of (view value.now)) }
{
    index_in(&number_of(value)?)
}

/// The whole number at a key, from 0 to 4,294,967,295.
#[tactic(auto, using(crate::specs::WalkLaws::walk_at_steps))]
pub fn integer_field(alloc: Global, name: &str, value: &Value) -> Result<u32, MofFault>
    ensures { MeetsWalk (λ number. number) result (walk_at an_integer name.now (view value.now)) }
{
    let found = field(alloc, name, value)?;
    at_key(alloc, name, integer(alloc, found))
}
