//! Terms: a coefficient and a variable.
ghost use Rattle.std.specs.Prelude.{◌≡◌, ◌+◌, ◌<◌, ◌≤◌, ◌%◌, ◌^◌, ◌++◌, OnOk};
ghost use Rattle.generated_script.specs.Generator.{after, draw, step};
ghost use Rattle.generated_script.specs.Script.{term_text};

use crate::generator::Generator;
use crate::texts::{push, push_number};
use lists::Memory;

/// The variable of a place, counted from 0, with a coefficient.
#[derive(Clone, Copy)]
pub(crate) struct Term {
    pub(crate) coefficient: u32,
    pub(crate) place: u32,
}

impl Term {
    // The term that two draws give: its variable first, then its coefficient.
    pub(crate) fn draw(generator: &mut Generator, vars: u32) -> Term
        requires { 1 ≤ vars }
        ensures place { result.place ≡ draw generator.old.state % vars }
        ensures coefficient { result.coefficient ≡ 1 + draw (step generator.old.state) % 9 }
        ensures moved { generator.new.state ≡ after 2 generator.old.state }
    {
        let place = generator.draw() % vars;
        let coefficient = 1 + generator.draw() % 9;
        Term { coefficient, place }
    }

    /// Appends ` C*xI`.
    pub(crate) fn push_to(self, line: &mut Vec<u8>) -> Result<(), Memory>
        ensures { OnOk result
            (line.new.items ≡ line.old.items ++ term_text self.coefficient self.place) }
    {
        push(line, " ")?;
        push_number(line, u64::from(self.coefficient))?;
        push(line, "*x")?;
        push_number(line, u64::from(self.place) + 1)
    }
}
