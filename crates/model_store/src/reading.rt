//! A user's model that is read an item at a time, and how often.
ghost use Rattle.std.specs.Prelude.{◌≡◌};
ghost use Rattle.std.specs.Option.{option_copied};
ghost use Rattle.model_store.specs.Reading.{read_once_more};
ghost use Rattle.numbered_list.specs.Numbered as numbered;
ghost use Rattle.user_model.specs.Edited.{group_number, row_number};
ghost use Rattle.user_model.specs.Valid.{IsValid};

use crate::UserModel;
use std::marker::Model;
use user_model::{Group, Objective, Row};

/// A view of a user's model that lends one item a call, and counts these calls up to the largest
/// `u64`. No call takes memory.
#[derive(Drop)]
pub struct CountedView<'a> {
    user: &'a UserModel,
    count: u64,
}

impl<'a> Model for CountedView<'a> {
    ghost use Rattle.model_store.specs.Reading.{ReadModel, read_code};

    ghost Value = { ReadModel };

    ghost coded = { read_code };

    ghost view = { λ r. record { model = r.user.now.model; reads = r.count } };
}

impl<'a> CountedView<'a> {
    /// A view that has read nothing yet.
    pub fn new(model: &'a UserModel) -> CountedView<'a>
        ensures model { result.model ≡ model.now.model }
        ensures reads { result.reads ≡ 0 }
    {
        CountedView {
            user: model,
            count: 0,
        }
    }

    /// The group with a number, and `None` where the model has none.
    pub fn group(&mut self, id: u32) -> Option<&'a Group>
        ensures value { option_copied result
            ≡ numbered.find group_number id self.old.model.groups }
        ensures read { self.new ≡ read_once_more self.old }
        ensures valid { IsValid self.old.model }
    {
        self.count = self.count.saturating_add(1);
        self.user.groups().get(id)
    }

    /// The row with a number, and `None` where the model has none.
    pub fn row(&mut self, id: u32) -> Option<&'a Row>
        ensures value { option_copied result ≡ numbered.find row_number id self.old.model.rows }
        ensures read { self.new ≡ read_once_more self.old }
        ensures valid { IsValid self.old.model }
    {
        self.count = self.count.saturating_add(1);
        self.user.rows().get(id)
    }

    pub fn objective(&mut self) -> &'a Objective
        ensures value { result.now ≡ self.old.model.objective }
        ensures read { self.new ≡ read_once_more self.old }
        ensures valid { IsValid self.old.model }
    {
        self.count = self.count.saturating_add(1);
        self.user.objective()
    }

    /// How often the model was read.
    pub fn reads(&self) -> u64
        ensures { result ≡ self.now.reads }
    {
        self.count
    }
}
