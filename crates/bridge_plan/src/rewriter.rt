//! What a bridging goes by.
ghost use Rattle.std.specs.Prelude.{◌≡◌, ◌≤◌, ◌+◌, ℕ, IsTrue};
ghost use Rattle.ratio_core.specs.Answers.{ExactWhere};
ghost use Rattle.bridge_graph.specs.declared.Choice.TheVariants.{By};
ghost use Rattle.item_core.specs.Kind.{kind_number};
ghost use Rattle.item_core.specs.KindOf.{kind_of_body};
ghost use Rattle.bridge_face.specs.ImageOf.{image_of};
ghost use Rattle.bridge_face.specs.Law.{IsItemFor};
ghost use Rattle.fresh_bridging.specs.TheRules.{edge_at, image_fits};

use bridge_graph::Choice;
use item_core::{Image, Item, Kind};
use ratio_core::NumberFault;

/// What rewrites items: a choice for each kind, and the images that the chosen edges make.
pub trait Rewriter {
    ghost use Rattle.bridge_plan.specs.Means.{Means};

    ghost means: { Self → Means };

    /// How many turns were taken.
    ghost turns: { Self → ℕ };

    /// How an item of the kind reaches the solver.
    fn choice(&self, kind: Kind) -> Choice
        ensures { result ≡ (means self.now).choice (kind_number kind) };

    /// The item's children by the chosen edge, and its components' expressions. `Overflow` exactly
    /// where a sum that the edge names doesn't fit.
    fn image(&mut self, edge: u8, item: &Item) -> Result<Image, NumberFault>
        requires chosen { (means self.old).choice (kind_number (kind_of_body item.now.body))
            ≡ By edge }
        requires suits { IsItemFor (edge_at edge) item.now }
        ensures answer { ExactWhere result (IsTrue (image_fits edge item.now))
            (λ image. image ≡ image_of (edge_at edge) item.now) }
        ensures means { means self.new ≡ means self.old }
        ensures turns { turns self.new ≤ turns self.old + 1 };
}
