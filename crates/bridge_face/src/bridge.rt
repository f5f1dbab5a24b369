//! The interface of bridges.
ghost use Rattle.std.specs.Prelude.{◌≡◌, None, IfErr, IfSome, IsSomeAnd, OnErr, OnOk, find};
ghost use Rattle.std.specs.FinMap as finite;
ghost use Rattle.std.specs.Option.{option_map};
ghost use Rattle.ratio_core.specs.Answers.{ExactWhere};
ghost use Rattle.item_core.specs.Edge.{family_of};
ghost use Rattle.bridge_face.specs.ImageOf.{image_of, ImageFits};
ghost use Rattle.bridge_face.specs.ItemAddresses.{is_of};
ghost use Rattle.bridge_face.specs.Law.{IsItemFor, IsLawful};
ghost use Rattle.bridge_face.specs.BridgeState.{IsCarriedBack, TakesDuals, all_gone, child_rows_of, found, given, gone};
ghost use Rattle.bridge_face.specs.BridgeState.{kept_item, tried};

use crate::ChildRows;
use aff_core::Address;
use item_core::{Edge, Family, Image, Item};
use lists::Memory;
use ratio_core::{NumberFault, Ratios};

/// A bridge of one family: it makes images of items, keeps each item with the edge that
/// rewrote it, and carries duals back to it.
///
/// `turns` counts the calls that work, `image`, `keep`, `alter`, `let_go` and `let_all_go`, also
/// those that were refused, and stays at its last value.
pub trait Bridge: Drop {
    ghost use Rattle.bridge_face.specs.BridgeState.{BridgeState};

    ghost state: { Self → BridgeState };

    /// The family. Each of its edges keeps the law.
    fn family(&self) -> Family
        ensures family { result ≡ (state self.now).family }
        ensures lawful { IsLawful result };

    fn turns(&self) -> u64
        ensures { result ≡ (state self.now).turns };

    /// The item's children by the edge, and its components' expressions. `Overflow` exactly where
    /// a sum that the edge names doesn't fit.
    fn image(&mut self, edge: Edge, item: &Item) -> Result<Image, NumberFault>
        requires own { family_of edge ≡ (state self.old).family }
        requires suits { IsItemFor edge item.now }
        ensures answer { ExactWhere result (ImageFits edge item.now)
            (λ image. image ≡ image_of edge item.now) }
        ensures state { state self.new ≡ tried (state self.old) };

    /// Keeps an item, or hands it back.
    fn keep(&mut self, edge: Edge, item: Item) -> Result<(), (Item, Memory)>
        requires own { family_of edge ≡ (state self.old).family }
        requires suits { IsItemFor edge item }
        requires free { found (state self.old) item.at ≡ None }
        ensures ok { OnOk result (state self.new
            ≡ given (state self.old) (record { edge = edge; item = item })) }
        ensures err { OnErr result (state self.new ≡ tried (state self.old)) }
        ensures handed_back { IfErr result (λ e. e.0 ≡ item) };

    /// Puts an item in the place of the one that is kept at its address, which is the answer.
    fn alter(&mut self, item: Item) -> Item
        requires { IsSomeAnd (found (state self.old) item.at) (λ kept. IsItemFor kept.edge item) }
        ensures old { IfSome (found (state self.old) item.at) (λ kept. result ≡ kept.item) }
        ensures state { IfSome (found (state self.old) item.at)
            (λ kept. state self.new ≡ given (state self.old) (kept_item item kept)) };

    /// Takes out the item that is kept at an address; `None` exactly where there is none.
    fn let_go(&mut self, at: &Address) -> Option<Item>
        ensures item { result ≡ option_map (λ kept. kept.item) (found (state self.old) at.now) }
        ensures state { state self.new ≡ gone (state self.old) at.now };

    /// Takes out all items.
    fn let_all_go(&mut self)
        ensures { state self.new ≡ all_gone (state self.old) };

    /// The first of the addresses at and below that of an item of the model at which something is
    /// kept; `None` exactly where there is none.
    fn first_of(&self, at: &Address) -> Option<Address>
        ensures { result ≡ find (is_of at.now) (finite.keys (state self.now).kept) };

    /// Where the child rows of an item stand; `None` exactly where nothing is kept at the address.
    fn child_rows(&self, at: &Address) -> Option<ChildRows>
        ensures { result ≡ option_map (λ kept. child_rows_of kept.edge kept.item)
            (found (state self.now) at.now) };

    /// The dual of a kept row, by those of its child rows in order. `Overflow` exactly where a sum
    /// that the edge names doesn't fit.
    fn back(&self, at: &Address, duals: &[Ratios]) -> Result<Ratios, NumberFault>
        requires { IsSomeAnd (found (state self.now) at.now) (λ kept. TakesDuals kept duals.now) }
        ensures { IfSome (found (state self.now) at.now) (IsCarriedBack result duals.now) };
}
