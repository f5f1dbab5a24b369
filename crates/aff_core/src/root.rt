//! The kinds of item that an address begins at.

use std::fmt;

/// What an address begins at. The order of the variants is the order of addresses.
#[derive(Clone, Copy, Debug, PartialEq, Eq, PartialOrd, Ord)]
pub enum Root {
    Variable,
    Group,
    Row,
    Objective,
}

impl fmt::Display for Root {
    fn fmt<W: fmt::Write>(&self, f: &mut fmt::Formatter<W>) -> fmt::Result {
        match self {
            Root::Variable => write!(f, "variable"),
            Root::Group => write!(f, "group"),
            Root::Row => write!(f, "row"),
            Root::Objective => write!(f, "objective"),
        }
    }
}
