//! Addresses of items.
ghost use Rattle.std.specs.Prelude.{◌≡◌, ℕ, ◌+◌, ◌*◌, ◌<◌, ◌≤◌, length, refl, IsTrue, ◌↔◌};
ghost use Rattle.std.specs.Cmp.{eq_by_cmp_equiv, partial_equiv_from_equiv, po};
ghost use Rattle.std.specs.Ordering.{eq_by_cmp, as_partial_cmp};
ghost use Rattle.aff_core.specs.Address.{root_address, child_of, address_cmp, address_total, root_number};

use crate::Root;
use std::cmp::Ordering;
use std::fmt;
use std::marker::Model;

/// The address of an item: what it begins at, the number of that, and the positions of the
/// children chosen on the way down, at most forty.
#[derive(Clone, Copy)]
pub struct Address {
    // first what two roots are compared by: it is in one line of the cache
    root: Root,
    depth: u8,
    number: u32,
    positions: [u16; 40],
}

impl Model for Address {
    ghost use Rattle.aff_core.specs.Address.{Address, address_code};

    ghost Value = { Address };

    ghost coded = { address_code };

    ghost use Rattle.aff_core.specs.Stored.{address_of, IsPadded, padded, padded-address_of};

    ghost view = { address_of };

    ghost invariant = { IsPadded };

    ghost inverse = { padded };

    ghost inverse_ok = { padded-address_of };
}

impl Address {
    /// The address of an item of the model.
    pub fn root(root: Root, id: u32) -> Address
        ensures { result ≡ root_address root id }
    {
        Address {
            root,
            number: id,
            positions: [0; 40],
            depth: 0,
        }
    }

    /// The address of the child at a position.
    pub fn child(&self, position: u16) -> Address
        requires { length self.now.positions < 40 }
        ensures { result ≡ child_of self.now position }
    {
        let mut child = *self;
        child.positions[self.depth as usize] = position;
        child.depth += 1;
        child
    }

    /// The number of positions.
    pub fn depth(&self) -> usize
        ensures count { result ≡ length self.now.positions }
        ensures at_most_forty { length self.now.positions ≤ 40 }
    {
        self.depth as usize
    }

    /// What the address begins at.
    pub fn kind(&self) -> Root
        ensures { result ≡ self.now.root }
    {
        self.root
    }

    /// The number of what the address begins at.
    pub fn number(&self) -> u32
        ensures { result ≡ self.now.number }
    {
        self.number
    }

    // The root and its number, in the order of addresses.
    fn place(&self) -> u64
        ensures value { result ≡ root_number self.now.root * 4294967296 + self.now.number }
        ensures below { self.now.number < 4294967296 }
    {
        self.root as u64 * 4_294_967_296 + self.number as u64
    }

    /// The positions of the children chosen on the way down.
    pub fn positions(&self) -> &[u16]
        ensures { result.now ≡ self.now.positions }
    {
        &self.positions[..self.depth as usize]
    }
}

/// As `row 7.0.3`: what it begins at, the number, and the positions.
impl fmt::Display for Address {
    fn fmt<W: fmt::Write>(&self, f: &mut fmt::Formatter<W>) -> fmt::Result {
        write!(f, "{} {}", self.root, self.number)?;
        for position in self.positions() {
            write!(f, ".{position}")?;
        }
        Ok(())
    }
}

impl fmt::Debug for Address {
    fn fmt<W: fmt::Write>(&self, f: &mut fmt::Formatter<W>) -> fmt::Result {
        fmt::Display::fmt(self, f)
    }
}

impl PartialEq for Address {
    ghost eq = { eq_by_cmp address_cmp };

    ghost laws = { partial_equiv_from_equiv (eq_by_cmp_equiv address_total) };

    fn eq(&self, other: &Address) -> bool
        ensures value { result ≡ eq_by_cmp address_cmp self.now other.now }
        ensures same { IsTrue result ↔ (self.now ≡ other.now) }
    {
        self.cmp(other).is_eq()
    }
}

impl Eq for Address {
    ghost laws = { eq_by_cmp_equiv address_total };
}

impl PartialOrd for Address {
    ghost partial_cmp = { as_partial_cmp address_cmp };

    ghost laws = { po address_total (λ a b. refl) };

    fn partial_cmp(&self, other: &Address) -> Option<Ordering> {
        Some(self.cmp(other))
    }
}

impl Ord for Address {
    ghost cmp = { address_cmp };

    ghost total = { address_total };

    ghost matches_partial_cmp = { λ a b. refl };

    ghost matches_eq = { λ a b. refl };

    /// By root, number and positions, the first that differ decide.
    fn cmp(&self, other: &Address) -> Ordering {
        match self.place().cmp(&other.place()) {
            Ordering::Equal => self.positions().cmp(other.positions()),
            decided => decided,
        }
    }
}
