//! How what is found is printed.

/// Which lines are printed, and what each has.
#[derive(Clone, Copy)]
pub struct Print {
    /// The greatest number of lines.
    pub lines: usize,
    /// Whether each line has the places of the nodes.
    pub places: bool,
    /// Whether texts of more than 60 bytes are printed whole.
    pub whole: bool,
    /// Whether lines are in colour.
    pub color: bool,
}
