//! Answers for the leaf model, carried back.
ghost use Rattle.std.specs.Prelude.{◌≡◌, IfOk};
ghost use Rattle.std.specs.Prelude as prelude;
ghost use Rattle.certificates.specs.Good.{Good};
ghost use Rattle.certificates.specs.Points.{objective_value};
ghost use Rattle.certificates.specs.declared.certificate.Certificate.TheVariants.{Infeasible, Optimal, Unbounded};
ghost use Rattle.certificates.specs.Duals.{dual_gap};
ghost use Rattle.cert_core.specs.Folds.{EvaluationFits, ObjectiveValueFits};
ghost use Rattle.equality_form.specs.Right.{IsRight};
ghost use Rattle.fresh_bridging.specs.FreshBridging.{leaves_of};
ghost use Rattle.ratio_core.specs.Rational.{one_ℚ};
ghost use Rattle.aff_core.specs.Address.{root_address};
ghost use Rattle.aff_core.specs.Function.{evaluated};
ghost use Rattle.aff_core.specs.declared.root.Root.TheVariants.{Objective};
ghost use Rattle.std_form.specs.Answers.{answer_of};
ghost use Rattle.adjoint_core.specs.CanCarry.{CanCarry};
ghost use Rattle.adjoint_core.specs.CarriedBack.{CarriesAnswerBack, InfeasibleBackFits, IsUnfitInfeasible, IsUnfitOptimal, OptimalBackFits, PointAndRayFit, cancelled, point, ray, reduced, users};
ghost use Rattle.adjoint_core.specs.Read.{duals_by, expression_at, numbers_by};
ghost use Rattle.adjoint_core.specs.Told.{FirstNot, TellsCarried, TellsCarriedAt};
ghost use Rattle.adjoint_core.specs.Walk.{AreRowsWithin, IsUnfitAmong, RowDualFits, row_dual};

use crate::BackFault;
use crate::costs::{cancelling, reduced_costs};
use crate::gap::gap;
use crate::leaf_numbers::LeafNumbers;
use crate::rows::row_duals;
use crate::values::{values, values_and_entries};
use address_map::AddressMap;
use aff_core::{Address, Root};
use bridge_face::Bridge;
use cert_core::{Certificate, ModelPoint, ValueOrSlope, Variables, reading_of};
use lists::Sequence;
use model_store::UserModel;
use ratio_core::{Ratio, Ratios};
use solver_store::{LeafAnswer, LeafDuals, LeafPoint};
use std::alloc::Global;

/// The certificate, in the user's rows, of an answer for the leaf model.
///
/// The bridges and the map hold the fresh bridging of the user's model. `Overflow` comes exactly
/// where a product or a sum doesn't fit, with the first address at which one doesn't.
pub fn carry_back<B: Bridge>(
    alloc: Global,
    bridges: &[B],
    map: &AddressMap,
    model: &UserModel,
    a: &LeafAnswer,
) -> Result<Certificate, BackFault>
    requires { CanCarry (prelude.map B.state bridges.now) map.now model.now.model
        (answer_of map.now a.now) }
    ensures carried { (can : CanCarry (prelude.map B.state bridges.now) map.now model.now.model
        (answer_of map.now a.now))
        → CarriesAnswerBack can.bridging (answer_of map.now a.now) result }
    ensures right { (can : CanCarry (prelude.map B.state bridges.now) map.now model.now.model
        (answer_of map.now a.now))
        → IsRight (leaves_of can.bridging) (answer_of map.now a.now)
        → IfOk result (Good model.now.model) }
{
    // what this ensures of the model
    let _valid = model.objective();
    match a {
        LeafAnswer::Optimal { x, y } => optimal(alloc, bridges, map, model, x, y),
        LeafAnswer::Infeasible { y } => infeasible(alloc, bridges, map, model, y),
        LeafAnswer::Unbounded { x, d } => unbounded(alloc, map, model, x, d),
    }
}

fn optimal<B: Bridge>(
    alloc: Global,
    bridges: &[B],
    places: &AddressMap,
    model: &UserModel,
    x: &LeafPoint,
    y: &LeafDuals,
) -> Result<Certificate, BackFault>
    requires { AreRowsWithin (prelude.map B.state bridges.now) (duals_by places.now y.now)
        model.now.model.rows }
    ensures { let m = model.now.model in let f = expression_at places.now.exprs in
        let states = prelude.map B.state bridges.now in let leaf = duals_by places.now y.now in
        let duals = prelude.map (row_dual states leaf) m.rows in
        let fit = prelude.All (RowDualFits states leaf) m.rows in
        let unfit = IsUnfitAmong states leaf m.rows in
        let values = numbers_by places.now x.now in
        TellsCarried result (OptimalBackFits m duals fit unfit f values)
        (λ c. c ≡ Optimal (objective_value m (point m f values)) (point m f values) duals
        (reduced m duals))
        (IsUnfitOptimal m duals fit unfit f values) }
{
    let users = Variables::of(alloc, model.groups())?;
    let x = values_at(alloc, places, &users, x)?;
    let rows = row_duals(alloc, bridges, places, y, model.rows())?;
    let vars = reduced_costs(alloc, model.objective(), &users, model.rows(), &rows)?;
    let value = value_at(model, &users, &x)?;
    Ok(Certificate::Optimal {
        value,
        x: Sequence::from_vec(x),
        rows: Sequence::from_vec(rows),
        vars: Sequence::from_vec(vars),
    })
}

// The values of the user's variables. The numbers of the leaf variables are freed here, in one
// place, before the duals are carried.
fn values_at(
    alloc: Global,
    places: &AddressMap,
    users: &Variables,
    x: &LeafPoint,
) -> Result<Vec<Ratio>, BackFault>
    ensures { let f = expression_at places.now.exprs in let x = numbers_by places.now x.now in
        TellsCarried result (prelude.All (λ v. EvaluationFits one_ℚ (f v) x) users.now)
        (λ values. values.items ≡ prelude.map (λ v. evaluated one_ℚ (f v) x) users.now)
        (FirstNot (λ v. EvaluationFits one_ℚ (f v) x) (λ v. v) users.now) }
{
    let leaf = LeafNumbers::of(alloc, places, x)?;
    let made = values(alloc, places, users.addresses(), &leaf.point());
    drop(leaf);
    made
}

// The objective's value at a point.
fn value_at(model: &UserModel, variables: &Variables, x: &[Ratio]) -> Result<Ratio, BackFault>
    requires { variables.now ≡ users model.now.model }
    ensures { TellsCarriedAt result (ObjectiveValueFits model.now.model one_ℚ x.now)
        (λ q. q ≡ objective_value model.now.model x.now) (root_address Objective 0) }
{
    match reading_of(
        model.objective(),
        ValueOrSlope::Value,
        &ModelPoint::new(variables, x),
    ) {
        Ok(value) => Ok(value),
        Err(fault) => Err(BackFault::of_number(&Address::root(Root::Objective, 0), fault)),
    }
}

fn infeasible<B: Bridge>(
    alloc: Global,
    bridges: &[B],
    places: &AddressMap,
    model: &UserModel,
    y: &LeafDuals,
) -> Result<Certificate, BackFault>
    requires { AreRowsWithin (prelude.map B.state bridges.now) (duals_by places.now y.now)
        model.now.model.rows }
    ensures { let m = model.now.model in
        let states = prelude.map B.state bridges.now in let leaf = duals_by places.now y.now in
        let duals = prelude.map (row_dual states leaf) m.rows in
        let fit = prelude.All (RowDualFits states leaf) m.rows in
        let unfit = IsUnfitAmong states leaf m.rows in
        TellsCarried result (InfeasibleBackFits m duals fit unfit)
        (λ c. c ≡ Infeasible (dual_gap m duals (cancelled m duals)) duals (cancelled m duals))
        (IsUnfitInfeasible m duals fit unfit) }
{
    let users = Variables::of(alloc, model.groups())?;
    let rows = row_duals(alloc, bridges, places, y, model.rows())?;
    let vars = cancelling(alloc, &users, model.rows(), &rows)?;
    let gap = gap(model, &rows, &vars)?;
    Ok(Certificate::Infeasible {
        gap,
        rows: Sequence::from_vec(rows),
        vars: Sequence::from_vec(vars),
    })
}

fn unbounded(
    alloc: Global,
    places: &AddressMap,
    model: &UserModel,
    x: &LeafPoint,
    d: &LeafPoint,
) -> Result<Certificate, BackFault>
    ensures { let m = model.now.model in let f = expression_at places.now.exprs in
        let values = numbers_by places.now x.now in let along = numbers_by places.now d.now in
        TellsCarried result (prelude.All (PointAndRayFit m f values along) (users m))
        (λ c. c ≡ Unbounded (point m f values) (ray m f along))
        (FirstNot (PointAndRayFit m f values along) (λ v. v) (users m)) }
{
    let users = Variables::of(alloc, model.groups())?;
    let leaf = LeafNumbers::of(alloc, places, x)?;
    let along = LeafNumbers::of(alloc, places, d)?;
    let both = values_and_entries(
        alloc,
        places,
        users.addresses(),
        &leaf.point(),
        &along.point(),
    )?;
    Ok(Certificate::Unbounded {
        x: Sequence::from_vec(both.values),
        d: Sequence::from_vec(both.entries),
    })
}
