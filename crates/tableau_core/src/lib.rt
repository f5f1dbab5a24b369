//! The board of the simplex: what is read from the original columns at each basis, kept by row
//! operations.
#![tactic(auto)]

mod cost_row;
mod cost_rows;
mod dense_board;
mod fault;
mod kept;
mod pivoting;
mod places;
mod ratio_test;
mod row;
mod rows;
mod scan;
mod sign;
mod start;
mod tableau;

pub use cost_row::CostRow;
pub use dense_board::DenseBoard;
pub use fault::BoardOverflow;
pub use row::lowered;
pub use sign::{is_negative, is_positive};
pub use start::{first_prices, row_terms, second_prices, start_basis};
pub use tableau::Tableau;
