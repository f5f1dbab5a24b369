//! A number beside its column.
use ratio_core::Ratio;

#[derive(Clone, Copy)]
pub(crate) struct Entry {
    pub(crate) column: u32,
    pub(crate) value: Ratio,
}
