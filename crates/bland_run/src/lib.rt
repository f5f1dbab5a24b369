//! The equality form solved by Bland's rule alone, with no allowance of pivots, and the program's
//! call, which reads such a form and prints its answer.
#![tactic(auto)]

mod answering;
mod fault;
mod form;
mod input;
mod numbers;
mod printing;
mod reading;
mod running;
mod size;
mod small;
mod status;

pub use fault::SmallFault;
pub use running::run;
pub use small::solve_small;
pub use status::Status;
