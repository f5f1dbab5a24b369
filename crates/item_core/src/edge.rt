//! The edges: one table, of which all that is said of edges is read.
ghost use Rattle.std.specs.Prelude.{◌≡◌, slice_get, slice_index_or};
ghost use Rattle.std.specs.Option.{option_map};
ghost use Rattle.item_core.specs.Edge.{edge_entry, edge_number, edge_numbered};
ghost use Rattle.item_core.specs.declared.edge.EdgeEntry.{EdgeEntry};

use crate::{Family, Kind};
use bridge_graph::EdgeRow;

/// A rewriting of items of one kind as items of other kinds, by its number.
#[derive(Clone, Copy, Debug, PartialEq, Eq)]
pub enum Edge {
    E1,
    E2,
    E3,
    E4,
    E5,
    E6,
    E7,
    E8,
    E9,
    E10,
    E11,
    E12,
    E13,
    E14,
    E15,
    E16,
    E17,
    E18,
    E19,
    E20,
    E21,
    E22,
    E23,
    E24,
    E25,
    E26,
    E27,
    E28,
    E29,
    E30,
    E31,
    E32,
    E33,
    E34,
    E35,
    E36,
    E37,
    E38,
    E39,
    E40,
    E41,
    E42,
    E43,
    E44,
    E45,
    E46,
    E47,
    E48,
    E49,
    E50,
    E51,
    E52,
    E53,
    E54,
    E55,
    E56,
    E57,
    E58,
    E59,
    E60,
    E61,
    E62,
    E63,
}

/// How many edges there are.
pub const EDGE_COUNT: usize = 63;

/// The kinds of an edge's children: of its groups, then of its rows, then of its objective. One
/// row for each component counts once.
#[derive(Clone, Copy, Debug, PartialEq, Eq)]
pub enum Children {
    None,
    One(Kind),
    Two(Kind, Kind),
    Three(Kind, Kind, Kind),
}

/// What is said of an edge: the family of bridges that it is of, whether it keeps components, and
/// what it leads from and to.
#[derive(Clone, Copy, Debug, PartialEq, Eq)]
pub struct EdgeEntry {
    pub edge: Edge,
    pub family: Family,
    /// Whether a child group's variables stand for a group's components, where other edges from
    /// groups put functions in their place.
    pub keeps: bool,
    pub source: Kind,
    pub children: Children,
}

// The table of edges, a row an edge, in order: its family, whether it keeps components, and the
// kinds that it leads from and to.
macro_rules! edges {
    ($with:ident) => {
        $with! {
            E1 GreaterLess rewrites PlainLessThan => AffineGreaterThan;
            E2 GreaterLess rewrites AffineLessThan => AffineGreaterThan;
            E3 GreaterLess rewrites PlainGreaterThan => AffineLessThan;
            E4 GreaterLess rewrites AffineGreaterThan => AffineLessThan;
            E5 Vectorize rewrites AffineLessThan => VaffineNonpositives;
            E6 Vectorize rewrites AffineGreaterThan => VaffineNonnegatives;
            E7 Vectorize rewrites AffineEqualTo => VaffineZeros;
            E8 Vectorize rewrites PlainLessThan => VaffineNonpositives;
            E9 Vectorize rewrites PlainGreaterThan => VaffineNonnegatives;
            E10 Vectorize rewrites PlainEqualTo => VaffineZeros;
            E11 SplitSet rewrites AffineInterval => AffineGreaterThan AffineLessThan;
            E12 SplitSet rewrites PlainInterval => PlainGreaterThan PlainLessThan;
            E13 SplitSet rewrites AffineEqualTo => AffineGreaterThan AffineLessThan;
            E14 SplitSet rewrites VaffineZeros => VaffineNonnegatives VaffineNonpositives;
            E15 Scalarize rewrites VaffineZeros => AffineEqualTo;
            E16 Scalarize rewrites VaffineNonnegatives => AffineGreaterThan;
            E17 Scalarize rewrites VaffineNonpositives => AffineLessThan;
            E18 Scalarize rewrites VplainZeros => PlainEqualTo;
            E19 Scalarize rewrites VplainNonnegatives => PlainGreaterThan;
            E20 Scalarize rewrites VplainNonpositives => PlainLessThan;
            E21 OrthantFlip rewrites VaffineNonnegatives => VaffineNonpositives;
            E22 OrthantFlip rewrites VaffineNonpositives => VaffineNonnegatives;
            E23 ScalarFunctionize rewrites PlainLessThan => AffineLessThan;
            E24 ScalarFunctionize rewrites PlainGreaterThan => AffineGreaterThan;
            E25 ScalarFunctionize rewrites PlainEqualTo => AffineEqualTo;
            E26 ScalarFunctionize rewrites PlainInterval => AffineInterval;
            E27 VectorSlack rewrites VaffineNonnegatives => GroupNonnegatives VaffineZeros;
            E28 VectorSlack rewrites VaffineNonpositives => GroupNonpositives VaffineZeros;
            E29 VectorSlack rewrites VaffineNormInfinityCone => GroupNormInfinityCone VaffineZeros;
            E30 VectorSlack rewrites VaffineNormOneCone => GroupNormOneCone VaffineZeros;
            E31 ScalarSlack rewrites AffineLessThan => GroupLessThan AffineEqualTo;
            E32 ScalarSlack rewrites AffineGreaterThan => GroupGreaterThan AffineEqualTo;
            E33 ScalarSlack rewrites AffineInterval => GroupInterval AffineEqualTo;
            E34 VectorFunctionize rewrites VplainZeros => VaffineZeros;
            E35 VectorFunctionize rewrites VplainNonnegatives => VaffineNonnegatives;
            E36 VectorFunctionize rewrites VplainNonpositives => VaffineNonpositives;
            E37 VectorFunctionize rewrites VplainNormInfinityCone => VaffineNormInfinityCone;
            E38 VectorFunctionize rewrites VplainNormOneCone => VaffineNormOneCone;
            E39 DropReals rewrites VplainReals =>;
            E40 DropReals rewrites VaffineReals =>;
            E41 NormInfinity rewrites VaffineNormInfinityCone => VaffineNonnegatives;
            E42 NormOne rewrites VaffineNormOneCone => GroupReals VaffineNonnegatives;
            E43 FreeVar rewrites GroupReals => GroupNonnegatives;
            E44 NonposVar rewrites GroupNonpositives => GroupNonnegatives;
            E45 ZerosVar rewrites GroupZeros =>;
            E46 VectorizeVar rewrites GroupLessThan => GroupNonpositives;
            E47 VectorizeVar rewrites GroupGreaterThan => GroupNonnegatives;
            E48 VectorizeVar rewrites GroupEqualTo => GroupZeros;
            E49 Later keeps GroupLessThan => Free PlainLessThan;
            E50 Later keeps GroupGreaterThan => Free PlainGreaterThan;
            E51 Later keeps GroupEqualTo => Free PlainEqualTo;
            E52 Later keeps GroupInterval => Free PlainInterval;
            E53 Later keeps GroupNonnegatives => Free VplainNonnegatives;
            E54 Later keeps GroupInterval => GroupReals AffineInterval;
            E55 Later keeps GroupNonnegatives => GroupReals VaffineNonnegatives;
            E56 Later keeps GroupNormInfinityCone => GroupReals VaffineNormInfinityCone;
            E57 Later keeps GroupNormOneCone => GroupReals VaffineNormOneCone;
            E58 ObjFlip rewrites MinAffine => MaxAffine;
            E59 ObjFlip rewrites MaxAffine => MinAffine;
            E60 ObjFunctionize rewrites MinPlain => MinAffine;
            E61 ObjFunctionize rewrites MaxPlain => MaxAffine;
            E62 ObjSlack rewrites MinAffine => Free AffineGreaterThan MinPlain;
            E63 ObjSlack rewrites MaxAffine => Free AffineLessThan MaxPlain;
        }
    };
}

macro_rules! children {
    () => {
        Children::None
    };
    ($first:ident) => {
        Children::One(Kind::$first)
    };
    ($first:ident $second:ident) => {
        Children::Two(Kind::$first, Kind::$second)
    };
    ($first:ident $second:ident $third:ident) => {
        Children::Three(Kind::$first, Kind::$second, Kind::$third)
    };
}

macro_rules! keeps_components {
    (keeps) => {
        true
    };
    (rewrites) => {
        false
    };
}

macro_rules! edge_entries {
    ($($edge:ident $family:ident $keeps:ident $source:ident => $($child:ident)*;)*) => {
        [$(EdgeEntry {
            edge: Edge::$edge,
            family: Family::$family,
            keeps: keeps_components!($keeps),
            source: Kind::$source,
            children: children!($($child)*),
        }),*]
    };
}

/// The entries of the edges, in order.
pub const EDGES: [EdgeEntry; EDGE_COUNT] = edges!(edge_entries);

macro_rules! graph_row {
    ($source:ident) => {
        graph_row!($source, [0, 0, 0], 0)
    };
    ($source:ident $first:ident) => {
        graph_row!($source, [Kind::$first as u8, 0, 0], 1)
    };
    ($source:ident $first:ident $second:ident) => {
        graph_row!($source, [Kind::$first as u8, Kind::$second as u8, 0], 2)
    };
    ($source:ident $first:ident $second:ident $third:ident) => {
        graph_row!($source, [Kind::$first as u8, Kind::$second as u8, Kind::$third as u8], 3)
    };
    ($source:ident, $children:expr, $count:expr) => {
        EdgeRow {
            source: Kind::$source as u8,
            children: $children,
            count: $count,
        }
    };
}

macro_rules! graph_rows {
    ($($edge:ident $family:ident $keeps:ident $source:ident => $($child:ident)*;)*) => {
        [$(graph_row!($source $($child)*)),*]
    };
}

/// The edges as those of a graph, in which kinds are numbered from 0.
pub const EDGE_ROWS: [EdgeRow; EDGE_COUNT] = edges!(graph_rows);

impl Edge {
    /// The edge's entry in the table.
    pub fn entry(self) -> EdgeEntry
        ensures { result ≡ edge_entry self }
    {
        entry_in(&EDGES, self)
    }

    /// The edge of a number, from 0 on in the table's order, and `None` past the last.
    pub fn numbered(number: usize) -> Option<Edge>
        ensures { result ≡ edge_numbered number }
    {
        edge_in(&EDGES, number)
    }
}

// The edge's entry in a table. The table is lent: a proof takes one that is owned apart, entry by
// entry.
fn entry_in(entries: &[EdgeEntry; EDGE_COUNT], edge: Edge) -> EdgeEntry
    ensures { (other : EdgeEntry) → result ≡ slice_index_or entries.now (edge_number edge) other }
{
    entries[edge as usize]
}

fn edge_in(entries: &[EdgeEntry], number: usize) -> Option<Edge>
    ensures { result ≡ option_map (λ row. row.edge) (slice_get entries.now number) }
{
    let entry = entries.get(number)?;
    Some(entry.edge)
}
