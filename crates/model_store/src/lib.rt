//! The user's model: every edit, every refusal in order, and taking back.
#![tactic(auto)]

mod parked;
mod parking;
mod reading;
mod store;

pub use parked::Parked;
pub use reading::CountedView;
pub use store::UserModel;
pub use user_model::{
    ApplyFault, Edit, Group, GroupVar, GroupVars, Groups, NamedFunc, NextNumbers, Objective,
    OldGroups, OldRows, Refusal, Row, Rows, Sense, Undo, UserFunc,
};
