//! What a line says.
use crate::EdgeCost;
use item_core::{Edge, Family, Target};
use name_index::Name;
use script_tokens::NativeKind;
use user_model::Edit;

/// What a line of a script says.
#[derive(Debug, Drop)]
pub enum Command {
    /// Nothing: a line without tokens, or a remark.
    Silent,
    /// An edit of the user's model.
    Edit(Edit),
    /// The solver supports the kinds of this target.
    Target(Target),
    /// Whether the solver supports a native kind.
    Support { kind: NativeKind, value: bool },
    /// What an edge costs.
    Cost { edge: Edge, cost: EdgeCost },
    /// Whether a family of bridges is on.
    Switch { family: Family, value: bool },
    /// Gives the solver the model.
    Attach,
    /// Empties the solver.
    Detach,
    /// Opens a group of edits.
    Begin,
    /// Makes the edits of the group, all or none.
    Commit,
    /// Closes the group; none of its edits is made.
    Abandon,
    /// Solves, with at most this number of pivots where one is given.
    Optimize(Option<u32>),
    /// Prints the solver's model.
    Bridged,
    /// Prints how each kind is bridged.
    Plan,
    /// Prints the user's model as a file.
    Write,
    /// Reads the user's model from the file with this name.
    Load(Name),
    /// Exits.
    Quit,
}
