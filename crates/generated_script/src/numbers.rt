//! The numbers that a script is generated from.
ghost use Rattle.std.specs.Prelude.{◌≡◌};
ghost use Rattle.generated_script.specs.ScriptNumbers.{in_range, numbers_of};

use std::marker::Model;

/// The four numbers that a script is generated from: a seed of at most 2,147,483,647, 1 to 1,000
/// variables, at most 1,000 rows, and at most 100,000 edits, none where there is no row.
#[derive(Clone, Copy, Debug)]
pub struct Recipe {
    pub(crate) seed: u32,
    pub(crate) vars: u32,
    pub(crate) rows: u32,
    pub(crate) edits: u32,
}

impl Model for Recipe {
    ghost use Rattle.std.specs.Prelude.{IsTrue};
    ghost use Rattle.generated_script.specs.ScriptNumbers.{ScriptNumbers, is_in_range, numbers_code};

    ghost Value = { ScriptNumbers };

    ghost coded = { numbers_code };

    ghost view = { λ r. record { seed = r.seed; vars = r.vars; rows = r.rows; edits = r.edits } };

    ghost invariant = { λ r. IsTrue (is_in_range
        (record { seed = r.seed; vars = r.vars; rows = r.rows; edits = r.edits })) };

    ghost inverse = { λ n. record { seed = n.seed; vars = n.vars; rows = n.rows; edits = n.edits } };
}

impl Recipe {
    /// The numbers, if they are within the limits.
    pub fn new(seed: u32, vars: u32, rows: u32, edits: u32) -> Option<Recipe>
        ensures { result ≡ in_range (numbers_of seed vars rows edits) }
    {
        let has_model = seed < 1 << 31 && 1 <= vars && vars <= 1000;
        let has_edits = rows <= 1000 && edits <= 100_000 && (edits == 0 || 1 <= rows);
        if has_model && has_edits {
            Some(Recipe {
                seed,
                vars,
                rows,
                edits,
            })
        } else {
            None
        }
    }
}
