//! The words of lines on tables: targets, native kinds, and edges by number.
ghost use Rattle.std.specs.Prelude.{◌≡◌, IfSome, IsTrue, Some};
ghost use Rattle.std.specs.List.{find};
ghost use Rattle.item_core.specs.declared.kind.Kind.{Kind};
ghost use Rattle.item_core.specs.declared.kind.TheConstants.{KINDS};
ghost use Rattle.item_core.specs.Kind.{is_native, name_of};
ghost use Rattle.script_tokens.specs.Table.{edge_numbered, is_native_named, native_kind_of, target_of};

use crate::{NativeKind, is, parted_at};
use item_core::{Edge, KINDS, Kind, Target};

/// The target with this name.
#[tactic(auto, unfolding(crate::specs::Table::target_of))]
pub fn read_target(token: &[u8]) -> Option<Target>
    ensures { result ≡ target_of token.now }
{
    if is(token, "standard") {
        Some(Target::Standard)
    } else if is(token, "rows") {
        Some(Target::Rows)
    } else if is(token, "cone") {
        Some(Target::Cone)
    } else if is(token, "all") {
        Some(Target::All)
    } else if is(token, "less") {
        Some(Target::Less)
    } else {
        None
    }
}

/// The kind with this name, as `affine:LessThan`, where a solver may support it as it is. The name
/// of each such kind is read.
#[tactic(auto, unfolding(crate::specs::Table::native_kind_of))]
pub fn read_native_kind(token: &[u8]) -> Option<NativeKind>
    ensures value { result ≡ native_kind_of token.now }
    ensures reads_back { (kind : Kind)
        → IsTrue (is_native kind) → native_kind_of (name_of kind) ≡ Some kind }
{
    let (first, second) = parted_at(token, b':');
    let kind = native_named(first, second)?;
    NativeKind::new(kind)
}

// The native kind whose name has these words.
fn native_named(first: &[u8], second: &[u8]) -> Option<Kind>
    ensures value { result ≡ find (is_native_named first.now second.now) KINDS.kinds }
    ensures native { IfSome result (λ kind. IsTrue (is_native kind)) }
{
    KINDS
        .kinds
        .iter()
        .copied()
        .find(|kind| is_native_named(first, second, *kind))
}

// Whether a native kind's name has these words.
fn is_native_named(first: &[u8], second: &[u8], kind: Kind) -> bool
    ensures { result ≡ is_native_named first.now second.now kind }
{
    kind.is_native() && is(first, kind.first().text()) && is(second, kind.second().text())
}

/// The edge with this number, counted from 1.
#[tactic(auto, unfolding(crate::specs::Table::edge_numbered))]
pub fn edge_numbered(number: u32) -> Option<Edge>
    ensures { result ≡ edge_numbered number }
{
    if number == 0 {
        return None;
    }
    Edge::numbered((number - 1) as usize)
}
