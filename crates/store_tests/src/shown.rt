// A model as text.
use model_store::{Group, Row, UserModel};
use std::alloc::{AllocError, Global};
use test_support::Stop;

// All that readers give of a model.
fn text(alloc: Global, model: &UserModel) -> Result<String, AllocError> {
    let groups = model.groups();
    let rows = model.rows();
    format!(in alloc; "{groups:?} {rows:?} {:?}", model.objective())
}

/// A checksum of all that readers give of a model.
pub fn digest(rt: &HostRuntime, model: &UserModel) -> Result<u64, Stop> {
    Ok(sum(text(rt.alloc(), model)?.as_bytes()))
}

fn sum(bytes: &[u8]) -> u64 {
    let mut sum = 0xCBF2_9CE4_8422_2325u64;
    for byte in bytes {
        sum = (sum ^ u64::from(*byte)).wrapping_mul(0x0000_0100_0000_01B3);
    }
    sum
}

/// Prints the groups, the rows and the objective, a line each.
pub fn show(rt: &HostRuntime, model: &UserModel) -> Result<(), Stop> {
    for group in model.groups().iter() {
        println!(rt; "{group:?}")?;
    }
    for row in model.rows().iter() {
        println!(rt; "{row:?}")?;
    }
    println!(rt; "{:?}", model.objective())?;
    Ok(())
}

/// Prints copies of the same.
pub fn show_copies(rt: &HostRuntime, model: &UserModel) -> Result<(), Stop> {
    for group in model.groups().iter() {
        show_group(rt, group)?;
    }
    for row in model.rows().iter() {
        show_row(rt, row)?;
    }
    let objective = model.objective().copy(rt.alloc())?;
    println!(rt; "{objective:?}")?;
    Ok(())
}

fn show_group(rt: &HostRuntime, group: &Group) -> Result<(), Stop> {
    let copy = group.copy(rt.alloc())?;
    println!(rt; "{copy:?}")?;
    Ok(())
}

fn show_row(rt: &HostRuntime, row: &Row) -> Result<(), Stop> {
    let copy = row.copy(rt.alloc())?;
    println!(rt; "{copy:?}")?;
    Ok(())
}
