//! The board of the simplex in whole numbers: what is read from the original columns at each basis,
//! kept by row operations.
#![tactic(auto)]

mod board;
mod changes;
mod cost_rows;
mod entry;
mod leaving;
mod lowering;
mod marking;
mod marks;
mod mixed_row;
mod narrowing;
mod pivoting;
mod row;
mod rows;
mod scan;
mod sparse_row;
mod spreading;
mod start;
mod start_costs;
mod starting;
mod step;
mod terms;
mod words;

pub use board::Board;
