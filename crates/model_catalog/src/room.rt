//! Room for more.

/// How many more groups, rows, variables and names there is to be room for.
#[derive(Clone, Copy, Debug)]
pub struct More {
    pub groups: usize,
    pub rows: usize,
    pub variables: usize,
    pub variable_names: usize,
    pub row_names: usize,
}
