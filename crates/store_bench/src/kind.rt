// What is measured.
#[derive(Clone, Copy)]
pub enum Kind {
    /// The coefficient of x in a row.
    Coef,
    /// The bound of a row.
    RowSet,
    /// The name of a row, and back.
    RenameRow,
    /// The bound of x.
    Reset,
    /// The variable x, which every second row is, and back.
    DeleteVariable,
    /// A row, for good: no more rounds than rows.
    DeleteRow,
    /// A row, which is then added anew.
    ReplaceRow,
}

impl Kind {
    pub fn named(word: &str) -> Option<Kind> {
        match word {
            "coef" => Some(Kind::Coef),
            "set" => Some(Kind::RowSet),
            "renrow" => Some(Kind::RenameRow),
            "reset" => Some(Kind::Reset),
            "delvar" => Some(Kind::DeleteVariable),
            "delrow" => Some(Kind::DeleteRow),
            "reprow" => Some(Kind::ReplaceRow),
            _ => None,
        }
    }
}
