//! Numbers and names as JSON values.
ghost use Rattle.std.specs.Prelude.{◌≡◌, ◌∷◌, ◌++◌, IfOk, decimal};
ghost use Rattle.std.specs.Fmt.{signed_decimal};
ghost use Rattle.serde_json.specs.Data.{string};
ghost use Rattle.serde_json.specs.View.{view};
ghost use Rattle.ratio_core.specs.Text.{text_of};
ghost use Rattle.mof_write.specs.Values.{is_short, number_data};
ghost use Rattle.name_index.specs.Name.{IsName};
ghost use Rattle.ratio_core.specs.Rational.{Fits};
ghost use Rattle.mof_write.specs.Written.{address_data, naming};

use aff_core::Address;
use lists::Memory;
use model_store::UserModel;
use name_index::Name;
use ratio_core::Ratio;
use serde_json::{Number, Value};
use std::alloc::Global;

/// A numeral for a whole number of at most 18 digits, and the text of another.
#[tactic(auto, unfolding(crate::specs::Values::number_data))]
pub(crate) fn number(alloc: Global, number: Ratio) -> Result<Value, Memory>
    ensures value { IfOk result (λ value. view value ≡ number_data number) }
    ensures fits { Fits number }
{
    if is_short(&number) {
        Ok(Value::Number(Number::from(number.num() as i64)))
    } else {
        number_text(alloc, &number)
    }
}

// Whether it is a whole number of at most 18 digits.
fn is_short(number: &Ratio) -> bool
    ensures value { result ≡ is_short number.now }
    ensures fits { Fits number.now }
{
    number.den() == 1 && number.num().unsigned_abs() < 1_000_000_000_000_000_000
}

#[tactic(auto, unfolding(ratio_core::specs::Text::text_of, ratio_core::specs::Text::denominator_text))]
fn number_text(alloc: Global, number: &Ratio) -> Result<Value, Memory>
    ensures { IfOk result (λ value. view value ≡ string (text_of number.now)) }
{
    let den = number.den().unsigned_abs();
    if den == 1 {
        whole_text(alloc, number.num())
    } else {
        fraction_text(alloc, number.num(), den)
    }
}

fn whole_text(alloc: Global, num: i128) -> Result<Value, Memory>
    ensures { IfOk result (λ value. view value ≡ string (signed_decimal num)) }
{
    let text = format!(in alloc; "{num}")?;
    Ok(Value::String(text))
}

fn fraction_text(alloc: Global, num: i128, den: u128) -> Result<Value, Memory>
    ensures { IfOk result (λ value. view value ≡ string (signed_decimal num ++ 47 ∷ decimal den)) }
{
    let text = format!(in alloc; "{num}/{den}")?;
    Ok(Value::String(text))
}

/// The name of a variable that stands in the model.
pub(crate) fn variable_name(alloc: Global, model: &UserModel, at: &Address) -> Result<Value, Memory>
    ensures { IfOk result (λ value. view value ≡ address_data (naming model.now.model) at.now) }
{
    match model.variable_name(at) {
        Some(found) => name(alloc, found),
        None => Ok(Value::String(String::new(alloc))),
    }
}

/// A name.
pub(crate) fn name(alloc: Global, name: &Name) -> Result<Value, Memory>
    ensures value { IfOk result (λ value. view value ≡ string name.now) }
    ensures is_name { IsName name.now }
{
    let text = String::from_str(alloc, name.text())?;
    Ok(Value::String(text))
}
