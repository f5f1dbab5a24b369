//! The check of a certificate.
ghost use Rattle.std.specs.Prelude.{◌≡◌, ◌↔◌, All, IsTrue, length};
ghost use Rattle.ratio_core.specs.Rational.{zero_ℚ, ◌‹ℚ◌};
ghost use Rattle.ratio_core.specs.Answers.{ExactWhere};
ghost use Rattle.set_core.specs.Membership.{Dual, DualFits};
ghost use Rattle.numbered_list.specs.Numbered.{Rise};
ghost use Rattle.user_model.specs.declared.undo.NextNumbers.{NextNumbers};
ghost use Rattle.user_model.specs.Consistent.{variable_number};
ghost use Rattle.user_model.specs.Valid.{HasValidParts};
ghost use Rattle.certificates.specs.Duals.{dual_gap, with_duals};
ghost use Rattle.certificates.specs.Feasible.{IsBetter};
ghost use Rattle.certificates.specs.Good.{IsInfeasible, IsOptimal, IsUnbounded};
ghost use Rattle.cert_core.specs.Answers.{TellsWhereFits};
ghost use Rattle.cert_core.specs.Checked.{Checks, HasEntries, HasRowDuals, model_of};
ghost use Rattle.cert_core.specs.Folds.{AddUp, InfeasibleFits, OptimalFits, PointFits, UnboundedFits, gap_parts};
ghost use Rattle.cert_core.specs.Holding.{ModelHoldsAt, HasSets};
ghost use Rattle.cert_core.specs.Readings.{one_of};
ghost use Rattle.certificates.specs.Points.{all_addresses, variables_of};

use crate::adjoint::adjoint_of_rows;
use crate::duals::{group_duals_hold, row_duals_hold};
use crate::entries::has_row_duals;
use crate::equations::{are_reduced_costs, cancel, dual_value};
use crate::gap::{gap_of_rows, plus_groups};
use crate::objective::{constant, reading_of, sense};
use crate::point::ModelPoint;
use crate::points::{groups_hold, rows_hold};
use crate::readings::ValueOrSlope;
use crate::variables::Variables;
use certificates::Certificate;
use ratio_core::{NumberFault, Ratio, Ratios};
use std::alloc::Global;
use user_model::{Groups, Objective, Rows, Sense};

// The parts of a model.
#[derive(Drop)]
struct Parts<'a> {
    groups: &'a Groups,
    rows: &'a Rows,
    objective: &'a Objective,
    variables: Variables,
}

// The duals of the rows and of the variables.
#[derive(Clone, Copy)]
struct Duals<'a> {
    rows: &'a [Ratios],
    vars: &'a [Ratio],
}

/// Whether a certificate is good for the model of these groups and rows and this objective. A wrong
/// number of entries is no; otherwise everything is multiplied and added that the certificate's
/// kind asks for.
pub fn check(
    alloc: Global,
    groups: &Groups,
    rows: &Rows,
    objective: &Objective,
    certificate: &Certificate,
) -> Result<bool, NumberFault>
    requires numbers { Rise variable_number (variables_of groups.now.items) }
    requires valid { HasValidParts groups.now.items rows.now.items objective.now }
    ensures { (next : NextNumbers)
        → Checks (model_of groups.now.items rows.now.items objective.now next) result certificate.now }
{
    let parts = Parts {
        groups,
        rows,
        objective,
        variables: Variables::of(alloc, groups)?,
    };
    if !parts.has_entries(certificate) {
        return Ok(false);
    }
    match certificate {
        Certificate::Optimal {
            value,
            x,
            rows,
            vars,
        } => {
            let duals = Duals {
                rows: rows.as_slice(),
                vars: vars.as_slice(),
            };
            parts.is_optimal(alloc, value, x.as_slice(), &duals)
        }
        Certificate::Infeasible { gap, rows, vars } => {
            let duals = Duals {
                rows: rows.as_slice(),
                vars: vars.as_slice(),
            };
            parts.is_infeasible(alloc, gap, &duals)
        }
        Certificate::Unbounded { x, d } => { parts.is_unbounded(alloc, x.as_slice(), d.as_slice()) }
    }
}

impl<'a> Parts<'a> {
    fn has_point(&self, x: &Ratios) -> bool
        ensures { IsTrue result ↔ (length x.now ≡ length self.now.variables) }
    {
        x.len() == self.variables.addresses().len()
    }

    fn has_entries(&self, certificate: &Certificate) -> bool
        requires { self.now.variables ≡ all_addresses self.now.groups.now.items }
        ensures { (next : NextNumbers) → let model = model_of self.now.groups.now.items
            self.now.rows.now.items self.now.objective.now next in
            IsTrue result ↔ HasEntries model certificate.now }
    {
        match certificate {
            Certificate::Optimal { x, rows, vars, .. } => {
                self.has_point(x)
                    && has_row_duals(self.rows, rows.as_slice())
                    && self.has_point(vars)
            }
            Certificate::Infeasible { rows, vars, .. } => {
                has_row_duals(self.rows, rows.as_slice()) && self.has_point(vars)
            }
            Certificate::Unbounded { x, d } => self.has_point(x) && self.has_point(d),
        }
    }

    // Whether rows and groups hold at a point, or along a ray.
    fn holds_at(
        &self,
        alloc: Global,
        reading: ValueOrSlope,
        x: &[Ratio],
    ) -> Result<bool, NumberFault>
        requires ready { HasSets self.now.groups.now.items self.now.rows.now.items self.now.variables }
        requires size { length x.now ≡ length self.now.variables }
        ensures { (next : NextNumbers) → let model = model_of self.now.groups.now.items
            self.now.rows.now.items self.now.objective.now next in
            TellsWhereFits result (PointFits model (one_of reading) x.now)
            (ModelHoldsAt model (one_of reading) x.now) }
    {
        let at = ModelPoint::new(&self.variables, x);
        let rows = rows_hold(alloc, reading, self.rows, &at)?;
        let groups = groups_hold(reading, self.groups, x)?;
        Ok(all_true(&[rows, groups]))
    }

    // Whether the duals are in the dual sets.
    fn duals_hold(&self, duals: &Duals) -> Result<bool, NumberFault>
        requires ready { HasSets self.now.groups.now.items self.now.rows.now.items self.now.variables }
        requires rows { HasRowDuals self.now.rows.now.items duals.now.rows.now }
        requires vars { length duals.now.vars.now ≡ length self.now.variables }
        ensures { (next : NextNumbers) → let model = model_of self.now.groups.now.items
            self.now.rows.now.items self.now.objective.now next in
            let hs = with_duals model duals.now.rows.now duals.now.vars.now in
            TellsWhereFits result
            (All (λ h. DualFits h.set h.duals) hs) (All (λ h. Dual h.set h.duals) hs) }
    {
        let rows = row_duals_hold(self.rows, duals.rows)?;
        let groups = group_duals_hold(self.groups, duals.vars)?;
        Ok(all_true(&[rows, groups]))
    }

    fn gap(&self, duals: &Duals) -> Result<Ratio, NumberFault>
        requires ready { HasSets self.now.groups.now.items self.now.rows.now.items self.now.variables }
        requires rows { HasRowDuals self.now.rows.now.items duals.now.rows.now }
        requires vars { length duals.now.vars.now ≡ length self.now.variables }
        ensures { (next : NextNumbers) → let model = model_of self.now.groups.now.items
            self.now.rows.now.items self.now.objective.now next in
            ExactWhere result
            (AddUp zero_ℚ (gap_parts (with_duals model duals.now.rows.now duals.now.vars.now)))
            (λ q. q ≡ dual_gap model duals.now.rows.now duals.now.vars.now) }
    {
        let of_rows = gap_of_rows(self.rows, duals.rows)?;
        plus_groups(&of_rows, self.groups, duals.vars)
    }

    fn is_optimal(
        &self,
        alloc: Global,
        value: &Ratio,
        x: &[Ratio],
        duals: &Duals,
    ) -> Result<bool, NumberFault>
        requires ready { HasSets self.now.groups.now.items self.now.rows.now.items self.now.variables }
        requires size { length x.now ≡ length self.now.variables }
        requires rows { HasRowDuals self.now.rows.now.items duals.now.rows.now }
        requires vars { length duals.now.vars.now ≡ length self.now.variables }
        ensures { (next : NextNumbers) → let model = model_of self.now.groups.now.items
            self.now.rows.now.items self.now.objective.now next in
            TellsWhereFits result (OptimalFits model x.now duals.now.rows.now duals.now.vars.now)
            (IsOptimal model value.now x.now duals.now.rows.now duals.now.vars.now) }
    {
        let feasible = self.holds_at(alloc, ValueOrSlope::Value, x)?;
        let at = ModelPoint::new(&self.variables, x);
        let primal = reading_of(self.objective, ValueOrSlope::Value, &at)?;
        let in_sets = self.duals_hold(duals)?;
        let sums = adjoint_of_rows(alloc, &self.variables, self.rows, duals.rows)?;
        let us = self.variables.addresses();
        let equal = are_reduced_costs(self.objective, us, &sums, duals.vars)?;
        let gap = self.gap(duals)?;
        let dual = dual_value(sense(self.objective), &constant(self.objective), &gap)?;
        let is_primal = *value == primal;
        let is_dual = *value == dual;
        Ok(all_true(&[feasible, in_sets, equal, is_primal, is_dual]))
    }

    fn is_infeasible(&self, alloc: Global, gap: &Ratio, duals: &Duals) -> Result<bool, NumberFault>
        requires ready { HasSets self.now.groups.now.items self.now.rows.now.items self.now.variables }
        requires rows { HasRowDuals self.now.rows.now.items duals.now.rows.now }
        requires vars { length duals.now.vars.now ≡ length self.now.variables }
        ensures { (next : NextNumbers) → let model = model_of self.now.groups.now.items
            self.now.rows.now.items self.now.objective.now next in
            TellsWhereFits result (InfeasibleFits model duals.now.rows.now duals.now.vars.now)
            (IsInfeasible model gap.now duals.now.rows.now duals.now.vars.now) }
    {
        let in_sets = self.duals_hold(duals)?;
        let sums = adjoint_of_rows(alloc, &self.variables, self.rows, duals.rows)?;
        let equal = cancel(self.variables.addresses(), &sums, duals.vars)?;
        let of_duals = self.gap(duals)?;
        let is_gap = *gap == of_duals;
        let has_gap = is_positive(gap);
        Ok(all_true(&[in_sets, equal, is_gap, has_gap]))
    }

    fn is_unbounded(&self, alloc: Global, x: &[Ratio], d: &[Ratio]) -> Result<bool, NumberFault>
        requires ready { HasSets self.now.groups.now.items self.now.rows.now.items self.now.variables }
        requires point { length x.now ≡ length self.now.variables }
        requires ray { length d.now ≡ length self.now.variables }
        ensures { (next : NextNumbers) → let model = model_of self.now.groups.now.items
            self.now.rows.now.items self.now.objective.now next in
            TellsWhereFits result (UnboundedFits model x.now d.now) (IsUnbounded model x.now d.now) }
    {
        let feasible = self.holds_at(alloc, ValueOrSlope::Value, x)?;
        let ray = self.holds_at(alloc, ValueOrSlope::Slope, d)?;
        let along = ModelPoint::new(&self.variables, d);
        let slope = reading_of(self.objective, ValueOrSlope::Slope, &along)?;
        let is_better = improves(sense(self.objective), &slope);
        Ok(all_true(&[feasible, ray, is_better]))
    }
}

fn all_true(tests: &[bool]) -> bool
    ensures { IsTrue result ↔ All IsTrue tests.now }
{
    tests.iter().all(|test| *test)
}

#[tactic(auto, using(rational_laws::specs::Tests::rational_tests))]
fn is_positive(q: &Ratio) -> bool
    ensures { IsTrue result ↔ (zero_ℚ ‹ℚ q.now) }
{
    Ratio::zero() < *q
}

// Whether a slope makes the objective better.
#[tactic(auto, using(rational_laws::specs::Tests::rational_tests))]
fn improves(sense: Sense, slope: &Ratio) -> bool
    ensures { IsTrue result ↔ IsBetter sense slope.now zero_ℚ }
{
    match sense {
        Sense::Min => *slope < Ratio::zero(),
        Sense::Max => Ratio::zero() < *slope,
    }
}
