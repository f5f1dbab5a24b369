// Exact fractions of 128 bits, and the rational numbers that they stand for.
//
// A contract sees a `Ratio` as a `Rational` of specs/Rational.antt: a fraction in lowest terms, of
// any width. A call whose exact result has a part past 2^127 - 1 answers `Overflow`; none wraps or
// rounds.
#![tactic(auto)]

mod arithmetic;
mod binary;
mod compare;
mod divisor;
mod fault;
mod fraction;
mod narrow;
mod quotients;
mod text;
mod wide;

pub use binary::narrow_divisor;
pub use fault::{NumberFault, RatioFault};
pub use fraction::Ratio;
pub use lists::Memory;

/// A list of numbers.
pub type Ratios = lists::Sequence<Ratio>;
