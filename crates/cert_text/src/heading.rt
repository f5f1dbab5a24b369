//! The first line of a certificate's text.
ghost use Rattle.std.specs.Prelude.{◌≡◌};
ghost use Rattle.cert_text.specs.Reading as texts;

use ratio_core::Ratio;

/// What the first line says.
#[derive(Clone, Copy)]
pub(crate) enum Heading {
    /// An optimal point and its value.
    Optimal(Ratio),
    /// No feasible point, with the gap that shows it.
    Infeasible(Ratio),
    /// No best point.
    Unbounded,
}

/// `optimal V`, `infeasible GAP` or `unbounded`.
#[tactic(auto, unfolding(crate::specs::Reading::heading_of))]
pub(crate) fn read_heading(line: &[u8]) -> Option<Heading>
    ensures { result ≡ texts.heading_of line.now }
{
    if let Some(value) = number_after(line, b"optimal ") {
        return Some(Heading::Optimal(value));
    }
    if let Some(gap) = number_after(line, b"infeasible ") {
        return Some(Heading::Infeasible(gap));
    }
    if line == b"unbounded".as_slice() {
        Some(Heading::Unbounded)
    } else {
        None
    }
}

/// The number that stands after a beginning.
#[tactic(auto, unfolding(crate::specs::Reading::number_after))]
pub(crate) fn number_after(line: &[u8], beginning: &[u8]) -> Option<Ratio>
    ensures { result ≡ texts.number_after beginning.now line.now }
{
    Ratio::read(line.strip_prefix(beginning)?)
}
