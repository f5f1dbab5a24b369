//! The check of certificates against a model: whether one is good, exactly where every product and
//! every sum of its kind fits.
#![tactic(auto)]

mod adjoint;
mod checking;
mod components;
mod duals;
mod entries;
mod equations;
mod gap;
mod objective;
mod point;
mod points;
mod readings;
mod sums;
mod variables;

pub use adjoint::adjoint_of_rows;
pub use certificates::{Certificate, DualRows};
pub use checking::check;
pub use components::component_count;
pub use equations::reduced_cost;
pub use gap::{plus_group, plus_row};
pub use objective::{cost, reading_of, sense};
pub use point::ModelPoint;
pub use readings::ValueOrSlope;
pub use variables::Variables;
