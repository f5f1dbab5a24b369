//! Lists of terms in the order of their keys, whatever the keys are.
ghost use Rattle.std.specs.Prelude.{◌≡◌, [], ◌∷◌, ◌++◌, ◌↔◌, IfOk, IsTrue, filter};
ghost use Rattle.std.specs.FinMap as finite;
ghost use Rattle.ratio_core.specs.Answers.{ExactWhere};
ghost use Rattle.aff_core.specs.Arithmetic.{TermsFit, added_terms};
ghost use Rattle.aff_core.specs.Rising.{RiseBy};
ghost use Rattle.aff_core.specs.Terms.{HaveNoZero, TimesFit, is_nonzero, negated_terms, times};

use ratio_core::{Memory, NumberFault, Ratio};
use std::alloc::Global;
use std::cmp::Ordering;

/// Whether each key is above all earlier ones.
pub fn rise_strictly<K: Ord + Copy>(terms: &[(K, Ratio)]) -> bool
    ensures { IsTrue result ↔ RiseBy K.cmp terms.now }
{
    terms.is_sorted_by(|term, next| term.0 < next.0)
}

/// The terms but those with the coefficient 0.
pub fn nonzero_terms<K: Copy>(
    alloc: Global,
    terms: &[(K, Ratio)],
) -> Result<Vec<(K, Ratio)>, Memory>
    ensures { IfOk result (λ v. v.items ≡ filter is_nonzero terms.now) }
{
    let mut kept = Vec::with_capacity(alloc, terms.len())?;
    for (key, coefficient) in terms {
        push_nonzero(&mut kept, *key, *coefficient)?;
    }
    Ok(kept)
}

/// The terms with each coefficient negated.
pub fn negated_terms<K: Copy>(
    alloc: Global,
    terms: &[(K, Ratio)],
) -> Result<Vec<(K, Ratio)>, Memory>
    ensures { IfOk result (λ v. v.items ≡ negated_terms terms.now) }
{
    let mut negated = Vec::with_capacity(alloc, terms.len())?;
    for (key, coefficient) in terms {
        negated.push((*key, coefficient.neg()))?;
    }
    Ok(negated)
}

/// Each coefficient times a number, but those that are then 0. `Overflow` exactly where a product
/// doesn't fit.
pub fn scaled_terms<K: Copy>(
    alloc: Global,
    by: &Ratio,
    terms: &[(K, Ratio)],
) -> Result<Vec<(K, Ratio)>, NumberFault>
    ensures { ExactWhere result (TimesFit by.now terms.now)
        (λ v. v.items ≡ filter is_nonzero (times by.now terms.now)) }
{
    let mut scaled = Vec::with_capacity(alloc, terms.len())?;
    for (key, coefficient) in terms {
        let product = by.mul(coefficient)?;
        push_nonzero(&mut scaled, *key, product)?;
    }
    Ok(scaled)
}

/// The terms of both in the order of their keys, and of two of one key the sum, unless it is 0.
/// `Overflow` exactly where such a sum doesn't fit.
pub fn summed_terms<K: Ord + Copy>(
    alloc: Global,
    left: &[(K, Ratio)],
    right: &[(K, Ratio)],
) -> Result<Vec<(K, Ratio)>, NumberFault>
    requires left { RiseBy K.cmp left.now }
    requires right { RiseBy K.cmp right.now }
    requires left_nonzero { HaveNoZero left.now }
    requires right_nonzero { HaveNoZero right.now }
    ensures { let sums = finite.from_sorted {R = K.cmp} left.now in
        ExactWhere result (TermsFit sums right.now)
        (λ v. v.items ≡ filter is_nonzero (finite.entries (added_terms sums right.now))) }
{
    let mut summed = Vec::new(alloc);
    let (mut i, mut j) = (0, 0);
    while i < left.len() && j < right.len() {
        match left[i].0.cmp(&right[j].0) {
            Ordering::Less => {
                summed.push(left[i])?;
                i += 1;
            }
            Ordering::Equal => {
                let sum = left[i].1.add(&right[j].1)?;
                push_nonzero(&mut summed, left[i].0, sum)?;
                i += 1;
                j += 1;
            }
            Ordering::Greater => {
                summed.push(right[j])?;
                j += 1;
            }
        }
    }
    summed.extend_from_slice(&left[i..])?;
    summed.extend_from_slice(&right[j..])?;
    Ok(summed)
}

// Puts a term last, unless its coefficient is 0.
fn push_nonzero<K: Copy>(
    terms: &mut Vec<(K, Ratio)>,
    key: K,
    coefficient: Ratio,
) -> Result<(), Memory>
    ensures { IfOk result (λ _. terms.new.items
        ≡ terms.old.items ++ filter is_nonzero ((key, coefficient) ∷ [])) }
{
    if !coefficient.is_zero() {
        terms.push((key, coefficient))?;
    }
    Ok(())
}
