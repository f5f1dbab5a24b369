//! Lists that contracts see as lists.
ghost use Rattle.std.specs.Prelude.{◌≡◌, [], ◌∷◌, ◌++◌, OnOk, OnErr, IfErr, IsTrue, ◌↔◌, length, slice_get};
ghost use Rattle.std.specs.Option.{option_copied};

use crate::{Duplicate, Memory};
use std::alloc::Global;
use std::marker::Model;

/// A list of values, which keeps its allocator.
#[derive(Debug, Drop)]
pub struct Sequence<T> {
    items: Vec<T>,
}

impl<T> Model for Sequence<T> {
    ghost use Rattle.std.specs.Prelude.{List};
    ghost use Rattle.std.specs.Coded.{coded_list};

    ghost Value = { List T };

    ghost coded = { coded_list T.code };

    ghost view = { λ a. a.items.items };
}

impl<T> Sequence<T> {
    /// No values, which takes no memory.
    pub fn new(alloc: Global) -> Sequence<T>
        ensures { result ≡ [] }
    {
        Sequence {
            items: Vec::new(alloc),
        }
    }

    /// Puts a value last, or hands it back.
    pub fn push(&mut self, value: T) -> Result<(), (T, Memory)>
        ensures ok { OnOk result (self.new ≡ self.old ++ value ∷ []) }
        ensures err { OnErr result (self.new ≡ self.old) }
        ensures handed_back { IfErr result (λ e. e.0 ≡ value) }
    {
        match self.items.push(value) {
            Ok(()) => Ok(()),
            Err(full) => Err((full.value, Memory)),
        }
    }

    /// How many values there are.
    pub fn len(&self) -> usize
        ensures { result ≡ length self.now }
    {
        self.items.len()
    }

    /// Whether there is no value.
    pub fn is_empty(&self) -> bool
        ensures { IsTrue result ↔ (self.now ≡ []) }
    {
        self.items.is_empty()
    }

    /// The value at a place, and `None` past the last.
    pub fn get(&self, n: usize) -> Option<&T>
        ensures { option_copied result ≡ slice_get self.now n }
    {
        self.items.get(n)
    }

    /// The values as a slice.
    pub fn as_slice(&self) -> &[T]
        ensures { result.now ≡ self.now }
    {
        &self.items
    }

    /// The allocator that the list keeps.
    pub fn allocator(&self) -> Global {
        *self.items.allocator()
    }

    /// The list of a vector's values.
    pub fn from_vec(items: Vec<T>) -> Sequence<T>
        ensures { result ≡ items.items }
    {
        Sequence { items }
    }

    /// The vector of the values.
    pub fn into_vec(self) -> Vec<T>
        ensures { result.items ≡ self }
    {
        self.items
    }
}

impl<T: Duplicate> Duplicate for Sequence<T> {
    fn copy(&self) -> Result<Sequence<T>, Memory> {
        let mut copies = Vec::with_capacity(self.allocator(), self.len())?;
        for value in &self.items {
            copies.push(value.copy()?)?;
        }
        Ok(Sequence { items: copies })
    }
}
