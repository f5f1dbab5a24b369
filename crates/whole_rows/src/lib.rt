//! Rows of whole numbers over one denominator.
#![tactic(auto)]

mod arithmetic;
mod bits;
mod clearing;
mod common;
mod dividing;
mod listed;
mod marks;
mod narrow_row;
mod plan;
mod quotients;
mod ratio;
mod shrinking;
mod step;
mod widening;

pub use bits::{lowest, next_bit, with_bit, without_bit_if, without_lowest};
pub use common::{common_denominator, over_denominator};
pub use narrow_row::NarrowRow;
pub use plan::{LongPlan, LoweringPlan, ShortPlan};
pub use ratio::{has_negative, has_positive, is_before, is_negative_at, is_nonzero_at};
pub use step::NarrowStep;
pub use widening::{lowered_number, number, numerator};
