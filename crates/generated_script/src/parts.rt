//! What the lines of a script are, and how many draws they take.
ghost use Rattle.std.specs.Prelude.{◌≡◌, ◌<◌};
ghost use Rattle.generated_script.specs.Parts.{IsPartOf, draws_before, line_count, part_at, part_behind_rows};

use crate::numbers::Recipe;

/// A line of a script, by its place among those of its kind, from 0.
#[derive(Clone, Copy)]
pub(crate) enum Part {
    Variable(u64),
    Row(u64),
    Objective,
    Attach,
    Edit(u64),
    Optimize,
}

impl Recipe {
    /// How many lines the script has.
    pub fn line_count(self) -> u64
        ensures { result ≡ line_count self }
    {
        u64::from(self.vars) + u64::from(self.rows) + u64::from(self.edits) + 3
    }

    // What the line of this number is.
    #[tactic(auto, unfolding(crate::specs::Parts::part_at))]
    pub(crate) fn part_at(self, k: u64) -> Part
        requires { k < line_count self }
        ensures value { result ≡ part_at self k }
        ensures is_part { IsPartOf self result }
    {
        let vars = u64::from(self.vars);
        let rows = u64::from(self.rows);
        if k < vars {
            Part::Variable(k)
        } else if k < vars + rows {
            Part::Row(k - vars)
        } else {
            self.part_behind_rows(k - (vars + rows))
        }
    }

    fn part_behind_rows(self, k: u64) -> Part
        ensures value { result ≡ part_behind_rows self k }
        ensures is_part { IsPartOf self result }
    {
        if k == 0 {
            Part::Objective
        } else if k == 1 {
            Part::Attach
        } else if k < u64::from(self.edits) + 2 {
            Part::Edit(k - 2)
        } else {
            Part::Optimize
        }
    }

    // How many draws the lines before this one take.
    pub(crate) fn draws_before(self, part: Part) -> u64
        requires { IsPartOf self part }
        ensures { result ≡ draws_before self part }
    {
        let drawn = 7 * u64::from(self.rows) + u64::from(self.vars);
        match part {
            Part::Variable(_) => 0,
            Part::Row(row) => 7 * row,
            Part::Objective => 7 * u64::from(self.rows),
            Part::Attach => drawn,
            Part::Edit(edit) => drawn + 2 * edit,
            Part::Optimize => drawn + 2 * u64::from(self.edits),
        }
    }
}
