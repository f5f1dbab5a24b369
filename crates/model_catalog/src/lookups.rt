//! What is found in a kept model, without a scan.
ghost use Rattle.std.specs.Prelude.{◌≡◌};
ghost use Rattle.std.specs.List.{list_any};
ghost use Rattle.std.specs.Option.{option_copied};
ghost use Rattle.user_model.specs.Model as model;
ghost use Rattle.model_catalog.specs.Named as named;

use crate::Catalog;
use name_index::Name;
use user_model::{Group, Row};

impl Catalog {
    /// The number of the variable with a name.
    pub fn variable(&self, name: &Name) -> Option<u32>
        ensures { result ≡ model.variable_named self.now.model name.now }
    {
        self.variable_names.id(name)
    }

    /// The row with a name.
    pub fn row(&self, name: &Name) -> Option<&Row>
        ensures { option_copied result ≡ model.row_named self.now.model name.now }
    {
        let number = self.row_names.id(name)?;
        self.rows.get(number)
    }

    /// The name of the variable with a number.
    pub fn variable_name(&self, number: u32) -> Option<&Name>
        ensures { option_copied result ≡ named.variable_name self.now.model number }
    {
        self.variable_names.name(number)
    }

    /// The group of the variable with a number.
    pub fn group_of(&self, number: u32) -> Option<&Group>
        ensures { option_copied result ≡ model.group_of self.now.model number }
    {
        let variable = self.kept.get(number)?;
        self.groups.get(variable.group)
    }

    /// Whether a plain row bounds the variable with a number from below.
    pub fn has_lower_row(&self, number: u32) -> bool
        ensures { result ≡ list_any (model.bounds_below number) self.now.model.rows }
    {
        match self.kept.get(number) {
            Some(variable) => variable.lower > 0,
            None => false,
        }
    }

    /// Whether a plain row bounds the variable with a number from above.
    pub fn has_upper_row(&self, number: u32) -> bool
        ensures { result ≡ list_any (model.bounds_above number) self.now.model.rows }
    {
        match self.kept.get(number) {
            Some(variable) => variable.upper > 0,
            None => false,
        }
    }
}
