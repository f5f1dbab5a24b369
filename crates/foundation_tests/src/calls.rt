// Calls that fail.
use io_face::Calls;
use std::alloc::Global;

/// The call of this number alone fails. Without memory none does, and what is printed differs.
pub fn fails_at(alloc: Global, number: u64) -> Calls {
    let mut calls = Calls::new(alloc);
    match calls.push(number) {
        Ok(()) => calls,
        Err(_) => Calls::new(alloc),
    }
}
