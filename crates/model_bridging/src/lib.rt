//! The fresh bridging of a user's model, worked out before anything is changed.
#![tactic(auto)]

mod fault;
mod found;
mod kinds;
mod model_items;
mod model_plan;

pub use fault::PushFault;
pub use found::{
    check_found_groups, check_found_others, plan_found_groups, plan_found_others, tell_groups,
};
pub use model_plan::{ModelPlan, plan_model};
