//! Lists whose items are read, inserted and removed by place in logarithmic time.
//!
//! An order-statistic tree (Cormen, Leiserson, Rivest and Stein, "Introduction to Algorithms"): each
//! fork knows how many items there are in its tree. It is kept in balance by these numbers (Nievergelt and
//! Reingold, "Binary search trees of bounded balance", 1973): where one side has more than three
//! times the weight of the other, it is raised by one rotation or by two. With the weight one more
//! than the number of items, and 3 and 2 as the factors, that is enough (Hirai and Yamamoto,
//! "Balancing weight-balanced trees", 2011).
ghost use Rattle.std.specs.Prelude.{◌≡◌, ◌+◌, ◌^◌, ◌<◌, ◌≤◌, ◌++◌, ◌∷◌, [], IfErr, IfOk, MatchOption, length, slice_get};
ghost use Rattle.std.specs.List as list;
ghost use Rattle.std.specs.List.Sorted.{IsBinarySearchResult, IsSearchInRange};
ghost use Rattle.std.specs.FinMap as finite;
ghost use Rattle.std.specs.Option.{option_copied, option_map};
ghost use Rattle.aff_core.specs.Address.{address_cmp};
ghost use Rattle.aff_core.specs.Rising.{RiseStrictly};
ghost use Rattle.item_map.specs.Forks.{IsCounted, items_of};

use aff_core::Address;
use lists::Memory;
use std::alloc::Global;
use std::cmp::Ordering;
use std::marker::Model;
use std::mem;

/// A list, kept as a tree.
#[cycle(ranked)]
#[derive(Debug, Drop)]
pub struct Ranked<T> {
    root: Option<Box<Fork<T>>>,
}

/// An item with what is before it and what is after it.
#[cycle(ranked)]
#[derive(Debug, Drop)]
pub struct Fork<T> {
    before: Ranked<T>,
    pub(crate) item: T,
    len: usize,
    after: Ranked<T>,
}

impl<T> Model for Ranked<T> {
    ghost use Rattle.std.specs.Prelude.{List, length};
    ghost use Rattle.std.specs.Coded.{coded_list};

    ghost Value = { List T };

    ghost coded = { coded_list T.code };

    ghost use Rattle.item_map.specs.Forks.{AreCounted, items_in};

    ghost view = { λ a. items_in a.root };

    ghost invariant = { λ a. AreCounted a.root };

    ghost size = { length };

    ghost use Rattle.std.proofs.Common.{arith, length-append};

    ghost size_decreases = { λ a h. Prim.grind (arith, length-append) };
}

impl<T: Drop> Fork<T> {
    /// An item in room of its own, where it can be inserted from, or handed back.
    pub fn room(alloc: Global, item: T) -> Result<Box<Fork<T>>, (T, Memory)>
        ensures made { IfOk result (λ room. room.value.item ≡ item) }
        ensures handed_back { IfErr result (λ e. e.0 ≡ item) }
    {
        let alone = Fork {
            before: Ranked::new(),
            item,
            len: 1,
            after: Ranked::new(),
        };
        match Box::new(alloc, alone) {
            Ok(room) => Ok(room),
            Err(refused) => {
                let alone = refused.value;
                Err((alone.item, Memory))
            }
        }
    }
}

impl<T> Ranked<T> {
    /// No items, which takes no memory.
    pub fn new() -> Ranked<T>
        ensures { result ≡ [] }
    {
        Ranked { root: None }
    }

    /// How many items there are.
    pub fn len(&self) -> usize
        ensures { result ≡ length self.now }
    {
        match &self.root {
            None => 0,
            Some(fork) => fork.len,
        }
    }

    /// The item at a place, and `None` past the last.
    pub fn get(&self, n: usize) -> Option<&T>
        ensures { option_copied result ≡ slice_get self.now n }
    {
        match &self.root {
            None => None,
            Some(fork) => {
                let before = fork.before.len();
                match n.cmp(&before) {
                    Ordering::Less => fork.before.get(n),
                    Ordering::Equal => Some(&fork.item),
                    Ordering::Greater => fork.after.get(n - before - 1),
                }
            }
        }
    }
}

impl<T: Drop> Ranked<T> {
    /// Inserts an item at a place, in the room that it is in.
    pub fn insert(&mut self, n: usize, room: Box<Fork<T>>)
        requires in_range { n ≤ length self.old }
        requires fits { length self.old + 1 < 2 ^ 64 }
        ensures { self.new ≡ list.insert self.old n room.value.item }
    {
        let Some(mut fork) = self.root.take() else {
            self.root = Some(alone(room));
            return;
        };
        let before = fork.before.len();
        if n <= before {
            fork.before.insert(n, room);
        } else {
            fork.after.insert(n - before - 1, room);
        }
        self.root = Some(balanced(fork));
    }

    /// Takes an item out in its room, by its place, and nothing past the last.
    pub fn take(&mut self, n: usize) -> Option<Box<Fork<T>>>
        ensures item { option_map (λ fork. fork.value.item) result ≡ slice_get self.old n }
        ensures taken { self.new ≡ list.remove self.old n }
    {
        let Some(mut fork) = self.root.take() else {
            return None;
        };
        let before = fork.before.len();
        match n.cmp(&before) {
            Ordering::Less => {
                let taken = fork.before.take(n);
                self.root = Some(balanced(fork));
                taken
            }
            Ordering::Equal => {
                *self = take_beside(&mut fork);
                Some(fork)
            }
            Ordering::Greater => {
                let taken = fork.after.take(n - before - 1);
                self.root = Some(balanced(fork));
                taken
            }
        }
    }

    // Takes the fork of the first item out.
    fn take_first(&mut self) -> Option<Box<Fork<T>>>
        ensures { MatchOption result ((self.old ≡ []) × (self.new ≡ []))
            (λ fork. self.old ≡ fork.value.item ∷ self.new) }
    {
        match self.root.take() {
            None => None,
            Some(mut fork) => match fork.before.take_first() {
                None => {
                    *self = mem::replace(&mut fork.after, Ranked::new());
                    Some(fork)
                }
                Some(first) => {
                    self.root = Some(balanced(fork));
                    Some(first)
                }
            },
        }
    }

    // So that what is before its first item has at least half the weight of what is after it.
    fn lean_before(&mut self)
        ensures { self.new ≡ self.old }
    {
        match self.root.take() {
            None => (),
            Some(fork) => {
                let (before, after) = (fork.before.len(), fork.after.len());
                let leans = after.saturating_sub(before) > before;
                self.root = Some(if leans { raise_after(fork) } else { fork });
            }
        }
    }

    fn lean_after(&mut self)
        ensures { self.new ≡ self.old }
    {
        match self.root.take() {
            None => (),
            Some(fork) => {
                let (before, after) = (fork.before.len(), fork.after.len());
                let leans = before.saturating_sub(after) > after;
                self.root = Some(if leans { raise_before(fork) } else { fork });
            }
        }
    }
}

impl<V> Ranked<(Address, V)> {
    /// The value at an address, where addresses rise.
    pub fn find(&self, at: &Address) -> Option<&V>
        ensures { RiseStrictly self.now
            → option_copied result ≡ finite.find address_cmp at.now self.now }
    {
        match &self.root {
            None => None,
            Some(fork) => match at.cmp(&fork.item.0) {
                Ordering::Less => fork.before.find(at),
                Ordering::Equal => Some(&fork.item.1),
                Ordering::Greater => fork.after.find(at),
            },
        }
    }

    /// The place of an address, or the place where it would be, where addresses rise.
    pub fn place(&self, at: &Address) -> Result<usize, usize>
        ensures range { IsSearchInRange result (length self.now) }
        ensures place { IsBinarySearchResult (λ e. address_cmp e.0 at.now) self.now result }
    {
        match &self.root {
            None => Err(0),
            Some(fork) => match fork.item.0.cmp(at) {
                Ordering::Greater => fork.before.place(at),
                Ordering::Equal => Ok(fork.before.len()),
                Ordering::Less => {
                    let passed = fork.before.len() + 1;
                    match fork.after.place(at) {
                        Ok(n) => Ok(passed + n),
                        Err(n) => Err(passed + n),
                    }
                }
            },
        }
    }
}

// The fork's item with nothing beside it.
fn alone<T: Drop>(mut fork: Box<Fork<T>>) -> Box<Fork<T>>
    ensures items { items_of result.value ≡ fork.value.item ∷ [] }
    ensures counted { IsCounted result.value }
{
    fork.before = Ranked::new();
    fork.after = Ranked::new();
    fork.len = 1;
    fork
}

// Takes what is beside the fork's item, as one list.
fn take_beside<T: Drop>(fork: &mut Fork<T>) -> Ranked<T>
    requires fits { length fork.old.before + length fork.old.after < 2 ^ 64 }
    ensures items { result ≡ fork.old.before ++ fork.old.after }
    ensures item { fork.new.item ≡ fork.old.item }
{
    let before = mem::replace(&mut fork.before, Ranked::new());
    let mut after = mem::replace(&mut fork.after, Ranked::new());
    match after.take_first() {
        None => before,
        Some(mut top) => {
            top.before = before;
            top.after = after;
            Ranked {
                root: Some(balanced(top)),
            }
        }
    }
}

// The fork with its items counted.
fn counted<T: Drop>(mut fork: Box<Fork<T>>) -> Box<Fork<T>>
    requires fits { length (items_of fork.value) < 2 ^ 64 }
    ensures items { items_of result.value ≡ items_of fork.value }
    ensures counted { IsCounted result.value }
{
    fork.len = fork.before.len() + 1 + fork.after.len();
    fork
}

// The fork, in balance where it was but for one item.
fn balanced<T: Drop>(mut fork: Box<Fork<T>>) -> Box<Fork<T>>
    requires fits { length (items_of fork.value) < 2 ^ 64 }
    ensures items { items_of result.value ≡ items_of fork.value }
    ensures counted { IsCounted result.value }
{
    let (before, after) = (fork.before.len(), fork.after.len());
    if before / 3 > after {
        fork.before.lean_before();
        raise_before(fork)
    } else if after / 3 > before {
        fork.after.lean_after();
        raise_after(fork)
    } else {
        counted(fork)
    }
}

// Raises the fork before the top to its place.
fn raise_before<T: Drop>(mut top: Box<Fork<T>>) -> Box<Fork<T>>
    requires fits { length (items_of top.value) < 2 ^ 64 }
    ensures items { items_of result.value ≡ items_of top.value }
    ensures counted { IsCounted result.value }
{
    match top.before.root.take() {
        None => counted(top),
        Some(mut raised) => {
            top.before = mem::replace(&mut raised.after, Ranked::new());
            raised.after = Ranked {
                root: Some(counted(top)),
            };
            counted(raised)
        }
    }
}

// Raises the fork after the top to its place.
fn raise_after<T: Drop>(mut top: Box<Fork<T>>) -> Box<Fork<T>>
    requires fits { length (items_of top.value) < 2 ^ 64 }
    ensures items { items_of result.value ≡ items_of top.value }
    ensures counted { IsCounted result.value }
{
    match top.after.root.take() {
        None => counted(top),
        Some(mut raised) => {
            top.after = mem::replace(&mut raised.before, Ranked::new());
            raised.before = Ranked {
                root: Some(counted(top)),
            };
            counted(raised)
        }
    }
}
