//! Values of the user's variables, and what they are along a ray.
ghost use Rattle.std.specs.Prelude.{◌≡◌, All, map};
ghost use Rattle.aff_core.specs.Function.{evaluated};
ghost use Rattle.cert_core.specs.Folds.{EvaluationFits};
ghost use Rattle.cert_core.specs.Points.{numbers_in};
ghost use Rattle.cert_core.specs.Readings.{one_of};
ghost use Rattle.ratio_core.specs.Rational.{one_ℚ, zero_ℚ};
ghost use Rattle.ratio_core.specs.Answers.{ExactWhere};
ghost use Rattle.adjoint_core.specs.Read.{expression_at};
ghost use Rattle.adjoint_core.specs.Told.{FirstNot, TellsCarried, TellsCarriedAt};

use crate::BackFault;
use address_map::AddressMap;
use aff_core::Address;
use cert_core::{ModelPoint, ValueOrSlope};
use ratio_core::{NumberFault, Ratio};
use std::alloc::Global;

/// The values of variables, by their expressions.
pub(crate) fn values(
    alloc: Global,
    places: &AddressMap,
    users: &[Address],
    at: &ModelPoint,
) -> Result<Vec<Ratio>, BackFault>
    ensures { let f = expression_at places.now.exprs in let x = numbers_in at.now in
        TellsCarried result (All (λ v. EvaluationFits one_ℚ (f v) x) users.now)
        (λ values. values.items ≡ map (λ v. evaluated one_ℚ (f v) x) users.now)
        (FirstNot (λ v. EvaluationFits one_ℚ (f v) x) (λ v. v) users.now) }
{
    let mut values = Vec::with_capacity(alloc, users.len())?;
    for user in users {
        values.push(value(ValueOrSlope::Value, places, user, at)?)?;
    }
    Ok(values)
}

/// Numbers at a point, and along a ray.
#[derive(Drop)]
pub(crate) struct PointAndRay {
    pub(crate) values: Vec<Ratio>,
    pub(crate) entries: Vec<Ratio>,
}

/// The values of variables, and what they are along a ray.
pub(crate) fn values_and_entries(
    alloc: Global,
    places: &AddressMap,
    users: &[Address],
    at: &ModelPoint,
    along: &ModelPoint,
) -> Result<PointAndRay, BackFault>
    ensures { let f = expression_at places.now.exprs in
        let x = numbers_in at.now in let d = numbers_in along.now in
        TellsCarried result
        (All (λ v. EvaluationFits one_ℚ (f v) x × EvaluationFits zero_ℚ (f v) d) users.now)
        (λ both. (both.values.items ≡ map (λ v. evaluated one_ℚ (f v) x) users.now)
        × (both.entries.items ≡ map (λ v. evaluated zero_ℚ (f v) d) users.now))
        (FirstNot (λ v. EvaluationFits one_ℚ (f v) x × EvaluationFits zero_ℚ (f v) d) (λ v. v)
        users.now) }
{
    let mut values = Vec::with_capacity(alloc, users.len())?;
    let mut entries = Vec::with_capacity(alloc, users.len())?;
    for user in users {
        values.push(value(ValueOrSlope::Value, places, user, at)?)?;
        entries.push(value(ValueOrSlope::Slope, places, user, along)?)?;
    }
    Ok(PointAndRay { values, entries })
}

// What a variable's expression is at a point, or along a ray.
fn value(
    reading: ValueOrSlope,
    places: &AddressMap,
    user: &Address,
    at: &ModelPoint,
) -> Result<Ratio, BackFault>
    ensures { let f = expression_at places.now.exprs user.now in let x = numbers_in at.now in
        TellsCarriedAt result (EvaluationFits (one_of reading) f x)
        (λ q. q ≡ evaluated (one_of reading) f x) user.now }
{
    match read(reading, places, user, at) {
        Ok(number) => Ok(number),
        Err(fault) => Err(BackFault::of_number(user, fault)),
    }
}

fn read(
    reading: ValueOrSlope,
    places: &AddressMap,
    user: &Address,
    at: &ModelPoint,
) -> Result<Ratio, NumberFault>
    ensures { let f = expression_at places.now.exprs user.now in let x = numbers_in at.now in
        ExactWhere result (EvaluationFits (one_of reading) f x)
        (λ q. q ≡ evaluated (one_of reading) f x) }
{
    match places.expr(user) {
        Some(func) => reading.of_function(func, at),
        None => reading.of_variable(user, at),
    }
}
