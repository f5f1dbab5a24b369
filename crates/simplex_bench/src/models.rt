// Sparse forms of real kinds, each with a point that meets its rows.
ghost use Rattle.std.specs.Prelude.{◌<◌, ◌^◌, IfOk};
ghost use Rattle.simplex_core.specs.StdForm.{IsWellShaped};

use crate::draft::{Draft, matrix_of};
use crate::draw::Draw;
use crate::fault::BenchFault;
use crate::forms::checked;
use simplex_core::StdForm;
use std::alloc::Global;

/// What is modelled.
#[derive(Clone, Copy)]
pub enum Kind {
    /// What is made in a period, and kept before it or after it, balances what is sold.
    Chain,
    /// What flows along arcs from sources to sinks.
    Transport,
    /// A base of many components, of which some are also bought alone.
    Blend,
}

impl Kind {
    pub fn named(word: &str) -> Option<Kind> {
        match word {
            "chain" => Some(Kind::Chain),
            "transport" => Some(Kind::Transport),
            "blend" => Some(Kind::Blend),
            _ => None,
        }
    }
}

/// The form of a kind with these numbers of rows and columns.
pub fn model(alloc: Global, kind: Kind, m: u16, c: u16) -> Result<StdForm, BenchFault>
    ensures { IfOk result IsWellShaped }
{
    let mut draft = Draft::zeros(alloc, m, c)?;
    draw(kind, m, c, &mut draft)?;
    let Draft {
        cells,
        right,
        costs,
        terms,
        ..
    } = draft;
    let matrix = matrix_of(alloc, cells, terms)?;
    checked(alloc, usize::from(m), usize::from(c), matrix, right, costs)
}

fn draw(kind: Kind, m: u16, c: u16, draft: &mut Draft) -> Result<(), BenchFault> {
    let mut draw = Draw::new(1);
    match kind {
        Kind::Chain => chain(m, c, draft, &mut draw),
        Kind::Transport => transport(m, c, draft, &mut draw),
        Kind::Blend => blend(m, c, draft, &mut draw),
    }
}

// Ten periods of each product: what is made, with what was kept, is what is sold and what is kept.
// What is made is bounded, and then what is kept, as far as there are rows.
fn chain(m: u16, c: u16, draft: &mut Draft, draw: &mut Draw) -> Result<(), BenchFault> {
    let balances = u32::from(c).saturating_sub(u32::from(m));
    let bounds = u32::from(m).saturating_sub(balances);
    for row in 0..balances {
        balance(row, draft, draw)?;
    }
    for k in 0..bounds {
        let bounded = if k < balances {
            2 * k
        } else {
            2 * (k - balances) + 1
        };
        bound(balances + k, bounded, 2 * balances + k, draft, draw)?;
    }
    Ok(())
}

fn balance(row: u32, draft: &mut Draft, draw: &mut Draw) -> Result<(), BenchFault>
    requires { row < 2 ^ 16 }
{
    let (made, kept) = (2 * row, 2 * row + 1);
    draft.put(row, made, 1)?;
    draft.put(row, kept, -1)?;
    if row % 10 != 0 {
        draft.put(row, kept - 2, 1)?;
    }
    draft.add_side(row, i64::from(draw.below(90)) + 10)?;
    draft.put_cost(made, i64::from(draw.below(50)) + 1)?;
    draft.put_cost(kept, i64::from(draw.below(5)) + 1)
}

fn bound(
    row: u32,
    bounded: u32,
    over: u32,
    draft: &mut Draft,
    draw: &mut Draw,
) -> Result<(), BenchFault> {
    draft.put(row, bounded, 1)?;
    draft.put(row, over, 1)?;
    draft.add_side(row, i64::from(draw.below(100)) + 100)
}

// The first half of the rows are sources. What is drawn to flow along an arc is added at both ends.
fn transport(m: u16, c: u16, draft: &mut Draft, draw: &mut Draw) -> Result<(), BenchFault> {
    let half = u32::from(m / 2);
    if half == 0 {
        return Err(BenchFault::Number);
    }
    for arc in 0..u32::from(c) {
        let from = if arc < half { arc } else { draw.below(half) };
        let to = half + if arc < half { arc } else { draw.below(half) };
        put_arc(arc, from, to, draft, draw)?;
    }
    Ok(())
}

fn put_arc(
    arc: u32,
    from: u32,
    to: u32,
    draft: &mut Draft,
    draw: &mut Draw,
) -> Result<(), BenchFault> {
    draft.put(from, arc, 1)?;
    draft.put(to, arc, 1)?;
    let flow = i64::from(draw.below(20));
    draft.add_side(from, flow)?;
    draft.add_side(to, flow)?;
    draft.put_cost(arc, i64::from(draw.below(99)) + 1)
}

// The base has a part of each component. That number of parts of each is needed, and what is over
// is of no use. The first components are also bought alone.
fn blend(m: u16, c: u16, draft: &mut Draft, draw: &mut Draw) -> Result<(), BenchFault> {
    let bought = u32::from(c).saturating_sub(u32::from(m) + 1);
    draft.put_cost(0, 1000)?;
    for k in 0..u32::from(m) {
        draft.put(k, 0, 1)?;
        if k < bought {
            put_bought(k, draft, draw)?;
        } else {
            draft.put(k, 1 + bought + k, -1)?;
            draft.add_side(k, i64::from(draw.below(1000)))?;
        }
    }
    Ok(())
}

// A component that is also bought alone.
fn put_bought(k: u32, draft: &mut Draft, draw: &mut Draw) -> Result<(), BenchFault>
    requires { k < 2 ^ 16 }
{
    let (alone, over) = (1 + 2 * k, 2 + 2 * k);
    draft.put(k, alone, 1)?;
    draft.put(k, over, -1)?;
    draft.put_cost(alone, i64::from(draw.below(50)) + 1)?;
    draft.put_cost(over, i64::from(draw.below(3)))?;
    draft.add_side(k, i64::from(draw.below(5000)) + 1000)
}
