//! What stands for the variables of groups that were bridged.
ghost use Rattle.std.specs.Prelude.{◌≡◌, IfOk, IsTrue, true, false, map, MatchOption};
ghost use Rattle.std.specs.List.{list_all};
ghost use Rattle.ratio_core.specs.Answers.{ExactWhere};
ghost use Rattle.aff_core.specs.Arithmetic.{composed};
ghost use Rattle.item_core.specs.declared.image.Expression.TheVariants as expressions;
ghost use Rattle.item_core.specs.declared.item.Body.TheVariants.{AffineObj};
ghost use Rattle.fresh_bridging.specs.ModelImage.{row_body};
ghost use Rattle.fresh_bridging.specs.Entries.{expression_in, function_in, is_kept, kept_in};
ghost use Rattle.fresh_bridging.specs.Entries.{objective_by, plain_or_affine, put_in, put_in_body};
ghost use Rattle.fresh_bridging.specs.Entries.{put_in_body_fits, put_in_fits, put_into};
ghost use Rattle.fresh_bridging.specs.Entries.{put_into_fits, vector_by};
ghost use Rattle.fresh_bridging.specs.FitTests.{substitution_fits};

use crate::Entry;
use crate::expressions::Expressions;
use crate::functions::{function_for, make_functions};
use crate::renaming::{renamed, stays};
use aff_core::{Address, Addresses, Aff, Exprs, Sense, VecAff};
use item_core::{Body, Expression, Item};
use lists::{Duplicate, Memory};
use ratio_core::NumberFault;
use set_core::Set;
use std::alloc::Global;
use std::marker::Model;
use user_model::UserFunc;

/// What stands for variables: the expressions of those that have one, while every other variable
/// stands for itself.
///
/// Contracts see the entries. Beside the expressions it keeps the functions that were asked for, so
/// that each is made once.
#[derive(Debug, Drop)]
pub struct Standing {
    alloc: Global,
    expressions: Expressions,
    functions: Exprs,
}

impl Model for Standing {
    ghost use Rattle.std.specs.Prelude.{List};
    ghost use Rattle.std.specs.Coded.{coded_list};
    ghost use Rattle.fresh_bridging.specs.Entries as bridging;
    ghost use Rattle.bridge_plan.specs.EntryCode.{entry_code};
    ghost use Rattle.bridge_plan.specs.Stands.{AreFunctions};

    ghost Value = { List bridging.Entry };

    ghost coded = { coded_list entry_code };

    ghost view = { λ a. a.expressions };

    ghost invariant = { λ a. AreFunctions a.expressions a.functions };
}

impl Standing {
    /// What stands for variables by these entries; if a variable has several, the first wins.
    pub fn of(alloc: Global, entries: Vec<Entry>) -> Result<Standing, Memory>
        ensures { IfOk result (λ s. expression_in s ≡ expression_in entries.items) }
    {
        let expressions = Expressions::of(entries)?;
        let functions = Exprs::new(alloc);
        Ok(Standing {
            alloc,
            expressions,
            functions,
        })
    }

    /// What stands for a variable.
    pub fn expression(&self, var: &Address) -> Result<Expression, Memory>
        ensures { IfOk result (λ e. e ≡ expression_in self.now var.now) }
    {
        match self.expressions.get(var) {
            None => Ok(Expression::Kept { var: *var }),
            Some(Expression::Kept { var }) => Ok(Expression::Kept { var: *var }),
            Some(Expression::Bridged { func }) => Ok(Expression::Bridged { func: func.copy()? }),
        }
    }

    /// The variable that is kept for a variable, and `None` where it is bridged.
    pub fn kept(&self, var: &Address) -> Option<Address>
        ensures { MatchOption result (is_kept (expression_in self.now var.now) ≡ false)
            (λ kept. expression_in self.now var.now ≡ expressions.Kept kept) }
    {
        match self.expressions.get(var) {
            None => Some(*var),
            Some(Expression::Kept { var }) => Some(*var),
            Some(Expression::Bridged { .. }) => None,
        }
    }

    /// An expression with what stands for its variables put in.
    pub fn put_into(&mut self, expression: &Expression) -> Result<Expression, NumberFault>
        ensures answer { ExactWhere result (IsTrue (put_into_fits self.old expression.now))
            (λ e. e ≡ put_into self.old expression.now) }
        ensures same { self.new ≡ self.old }
    {
        match expression {
            Expression::Kept { var } => Ok(self.expression(var)?),
            Expression::Bridged { func } => Ok(Expression::Bridged {
                func: self.composed(func)?,
            }),
        }
    }

    /// An item with what stands for its variables put in.
    pub fn put_in(&mut self, item: Item) -> Result<Item, NumberFault>
        ensures answer { ExactWhere result (IsTrue (put_in_fits self.old item))
            (λ made. made ≡ put_in self.old item) }
        ensures same { self.new ≡ self.old }
    {
        let at = item.at;
        let body = self.put_in_body(item.body)?;
        Ok(Item { at, body })
    }

    #[tactic(auto, unfolding(fresh_bridging::specs::Entries::put_in_body))]
    fn put_in_body(&mut self, body: Body) -> Result<Body, NumberFault>
        ensures answer { ExactWhere result (IsTrue (put_in_body_fits self.old body))
            (λ made. made ≡ put_in_body self.old body) }
        ensures same { self.new ≡ self.old }
    {
        match body {
            Body::Group { set, vars } => Ok(Body::Group { set, vars }),
            Body::Free { vars } => Ok(Body::Free { vars }),
            Body::Plain { var, set } => Ok(self.plain(&var, set)?),
            Body::Affine { func, set } => Ok(Body::Affine {
                func: self.composed_owned(func)?,
                set,
            }),
            Body::PlainVec { vars, set } => Ok(self.plain_vector(vars.as_slice(), set)?),
            Body::AffineVec { func, set } => Ok(Body::AffineVec {
                func: self.each_composed(func.as_slice())?,
                set,
            }),
            Body::PlainObj { sense, var } => Ok(self.plain_objective(sense, &var)?),
            Body::AffineObj { sense, func } => Ok(Body::AffineObj {
                sense,
                func: self.composed_owned(func)?,
            }),
        }
    }

    /// The body of a user's row with what stands for its variables put in.
    #[tactic(auto, unfolding(fresh_bridging::specs::Entries::put_in_body))]
    pub fn row_body(&mut self, func: &UserFunc, set: &Set) -> Result<Body, NumberFault>
        ensures answer { let body = row_body func.now set.now in
            ExactWhere result (IsTrue (put_in_body_fits self.old body))
            (λ made. made ≡ put_in_body self.old body) }
        ensures same { self.new ≡ self.old }
    {
        let set = set.copy(self.alloc)?;
        match func {
            UserFunc::Plain(var) => Ok(self.plain(var, set)?),
            UserFunc::Affine(func) => Ok(Body::Affine {
                func: self.composed(func)?,
                set,
            }),
            UserFunc::PlainVec(vars) => Ok(self.plain_vector(vars.as_slice(), set)?),
            UserFunc::AffineVec(funcs) => Ok(Body::AffineVec {
                func: self.each_composed(funcs.as_slice())?,
                set,
            }),
        }
    }

    /// The body of an affine objective with what stands for its variables put in.
    pub fn objective_body(&mut self, sense: Sense, func: &Aff) -> Result<Body, NumberFault>
        ensures answer { ExactWhere result
            (IsTrue (substitution_fits (function_in self.old) func.now))
            (λ made. made ≡ AffineObj sense (composed (function_in self.old) func.now)) }
        ensures same { self.new ≡ self.old }
    {
        Ok(Body::AffineObj {
            sense,
            func: self.composed(func)?,
        })
    }

    /// The function that stands for a variable.
    pub fn function(&self, var: &Address) -> Result<Aff, Memory>
        ensures { IfOk result (λ f. f ≡ function_in self.now var.now) }
    {
        function_for(self.alloc, &self.expressions, var)
    }

    fn plain(&self, var: &Address, set: Set) -> Result<Body, Memory>
        ensures { IfOk result (λ body. body
            ≡ plain_or_affine (expression_in self.now var.now) set) }
    {
        match self.expression(var)? {
            Expression::Kept { var } => Ok(Body::Plain { var, set }),
            Expression::Bridged { func } => Ok(Body::Affine { func, set }),
        }
    }

    /// The body of a plain objective with what stands for its variable put in.
    pub fn plain_objective(&self, sense: Sense, var: &Address) -> Result<Body, Memory>
        ensures { IfOk result (λ body. body
            ≡ objective_by sense (expression_in self.now var.now)) }
    {
        match self.expression(var)? {
            Expression::Kept { var } => Ok(Body::PlainObj { sense, var }),
            Expression::Bridged { func } => Ok(Body::AffineObj { sense, func }),
        }
    }

    #[tactic(auto, unfolding(fresh_bridging::specs::Entries::vector_by))]
    fn plain_vector(&self, vars: &[Address], set: Set) -> Result<Body, Memory>
        ensures { let es = map (expression_in self.now) vars.now in
            IfOk result (λ body. body ≡ vector_by (list_all is_kept es) es set) }
    {
        if let Some(vars) = self.kept_variables(vars)? {
            return Ok(Body::PlainVec { vars, set });
        }
        Ok(Body::AffineVec {
            func: self.functions(vars)?,
            set,
        })
    }

    // The variables that are kept for these, and `None` where one of them is bridged.
    fn kept_variables(&self, vars: &[Address]) -> Result<Option<Addresses>, Memory>
        ensures { let es = map (expression_in self.now) vars.now in
            IfOk result (λ kept. MatchOption kept (list_all is_kept es ≡ false)
            (λ vars. (list_all is_kept es ≡ true) × (vars ≡ kept_in es))) }
    {
        let mut kept = Vec::with_capacity(self.alloc, vars.len())?;
        for var in vars {
            let Some(var) = self.kept(var) else {
                return Ok(None);
            };
            kept.push(var)?;
        }
        Ok(Some(Addresses::from_vec(kept)))
    }

    // The functions that stand for these variables.
    fn functions(&self, vars: &[Address]) -> Result<VecAff, Memory>
        ensures { IfOk result (λ funcs. funcs ≡ map (function_in self.now) vars.now) }
    {
        let mut funcs = Vec::with_capacity(self.alloc, vars.len())?;
        for var in vars {
            funcs.push(function_for(self.alloc, &self.expressions, var)?)?;
        }
        Ok(VecAff::from_vec(funcs))
    }

    // The function with what stands for its variables put in, which is itself where each of them
    // stands for itself.
    fn composed_owned(&mut self, func: Aff) -> Result<Aff, NumberFault>
        ensures answer { ExactWhere result
            (IsTrue (substitution_fits (function_in self.old) func))
            (λ f. f ≡ composed (function_in self.old) func) }
        ensures same { self.new ≡ self.old }
    {
        if stays(&self.expressions, &func) {
            return Ok(func);
        }
        self.composed(&func)
    }

    // The function with what stands for its variables put in.
    fn composed(&mut self, func: &Aff) -> Result<Aff, NumberFault>
        ensures answer { ExactWhere result
            (IsTrue (substitution_fits (function_in self.old) func.now))
            (λ f. f ≡ composed (function_in self.old) func.now) }
        ensures same { self.new ≡ self.old }
    {
        if let Some(made) = renamed(self.alloc, &self.expressions, func)? {
            return Ok(made);
        }
        make_functions(self.alloc, &self.expressions, &mut self.functions, func)?;
        func.substitute(&self.functions)
    }

    fn each_composed(&mut self, funcs: &[Aff]) -> Result<VecAff, NumberFault>
        ensures answer { ExactWhere result
            (IsTrue (list_all (substitution_fits (function_in self.old)) funcs.now))
            (λ fs. fs ≡ map (composed (function_in self.old)) funcs.now) }
        ensures same { self.new ≡ self.old }
    {
        let mut made = Vec::with_capacity(self.alloc, funcs.len())?;
        for func in funcs {
            made.push(self.composed(func)?)?;
        }
        Ok(VecAff::from_vec(made))
    }
}
