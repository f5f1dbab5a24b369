//! The numbers of a matrix that aren't 0, each beside its place, row by row: a walk along all of them
//! looks at each once.
ghost use Rattle.std.specs.Prelude.{◌≤◌, ℕ, length};
ghost use Rattle.sparse_ratios.specs.Terms.{AreTerms, AreTermsSplit};
ghost use Rattle.sparse_board.specs.Starting.{AreTermsOf};

use ratio_core::Ratio;

// How many terms are at places below `to`. The first `from` terms are known to be.
pub(crate) fn row_end(terms: &[(usize, Ratio)], from: usize, to: usize) -> usize
    requires { from ≤ length terms.now }
    ensures past { from ≤ result }
    ensures within { result ≤ length terms.now }
    ensures split { (n low : ℕ) → AreTerms 0 n terms.now → low ≤ to
        → AreTermsSplit low from terms.now → AreTermsSplit to result terms.now }
{
    for k in from..terms.len() {
        if terms[k].0 >= to {
            return k;
        }
    }
    terms.len()
}

// The terms from one up to another.
#[inline]
pub(crate) fn terms_between(terms: &[(usize, Ratio)], from: usize, end: usize) -> &[(usize, Ratio)]
    requires from { from ≤ end }
    requires end { end ≤ length terms.now }
    ensures { (n low high : ℕ) → AreTerms 0 n terms.now → AreTermsSplit low from terms.now
        → AreTermsSplit high end terms.now → AreTermsOf low high terms.now result.now }
{
    &terms[from..end]
}
