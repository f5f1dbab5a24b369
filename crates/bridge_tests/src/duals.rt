// Duals of child rows.
ghost use Rattle.std.specs.Prelude.{◌≡◌, IfOk, length, map};
ghost use Rattle.item_core.specs.Item.{functions_of};
ghost use Rattle.bridge_face.specs.BackOf.{size};

use crate::samples::ratio;
use item_core::{Body, Family, Item};
use lists::Memory;
use ratio_core::Ratios;
use std::alloc::Global;

/// A dual for each number of each row.
pub fn of_rows(alloc: Global, family: Family, rows: &[Item]) -> Result<Vec<Ratios>, Memory>
    ensures { IfOk result (λ duals.
        map length duals.items ≡ map size rows.now) }
{
    let mut duals = Vec::new(alloc);
    let mut start = 0usize;
    for row in rows {
        let count = function_count(&row.body);
        duals.push(numbers(alloc, family, start, count)?)?;
        start = start.wrapping_add(count);
    }
    Ok(duals)
}

fn function_count(body: &Body) -> usize
    ensures { result ≡ length (functions_of body.now) }
{
    match body {
        Body::Group { vars, .. } | Body::Free { vars } | Body::PlainVec { vars, .. } => vars.len(),
        Body::AffineVec { func, .. } => func.len(),
        _ => 1,
    }
}

// A number of entries of the list, from one on.
fn numbers(alloc: Global, family: Family, start: usize, count: usize) -> Result<Ratios, Memory>
    ensures { IfOk result (λ numbers. length numbers ≡ count) }
{
    let mut numbers = Vec::new(alloc);
    for n in 0..count {
        let number = list(family)[start.wrapping_add(n) % 5];
        numbers.push(ratio(number, 1))?;
    }
    Ok(Ratios::from_vec(numbers))
}

// The numbers of the duals, over and over.
fn list(family: Family) -> [i128; 5] {
    match family {
        Family::SplitSet => [5, -2, 3, 1, 4],
        Family::NormInfinity => [2, 0, 0, 1, 0],
        Family::NormOne => [1, 0, 1, 1, 0],
        _ => [1, 2, 3, 4, 5],
    }
}
