//! The texts of the answers to lines.
#![tactic(auto)]

mod answer;
mod choices;
mod draft;
mod refused;
mod replies;

pub use answer::Answer;
pub use choices::plan;
pub use draft::Draft;
pub use refused::{Place, Refused};
pub use replies::{done, held, refusal};
