//! Exchanges of a model's content.
ghost use Rattle.std.specs.Prelude.{◌≡◌};
ghost use Rattle.model_catalog.specs.Exchange.{contents};

use numbered_list::Change;
use user_model::{Group, NextNumbers, Objective, OldGroups, OldRows, Row, Undo};

/// What is to stand at some numbers of groups and of rows, another objective, and other next
/// numbers: what an undo has, and what an edit puts in.
#[derive(Debug, Drop)]
pub struct Exchange {
    pub groups: Vec<Change<Group>>,
    pub rows: Vec<Change<Row>>,
    pub objective: Option<Objective>,
    pub next: NextNumbers,
}

impl From<Undo> for Exchange {
    ghost use Rattle.std.specs.Prelude.{◌≡◌};
    ghost use Rattle.model_catalog.specs.Exchange.{contents};

    ghost from_gives = { λ undo with. contents with ≡ undo };

    fn from(undo: Undo) -> Exchange {
        Exchange {
            groups: undo.groups.into_vec(),
            rows: undo.rows.into_vec(),
            objective: undo.objective,
            next: undo.next,
        }
    }
}

impl From<Exchange> for Undo {
    ghost use Rattle.std.specs.Prelude.{◌≡◌};
    ghost use Rattle.model_catalog.specs.Exchange.{contents};

    ghost from_gives = { λ with undo. undo ≡ contents with };

    fn from(with: Exchange) -> Undo {
        Undo {
            groups: OldGroups::from_vec(with.groups),
            rows: OldRows::from_vec(with.rows),
            objective: with.objective,
            next: with.next,
        }
    }
}
