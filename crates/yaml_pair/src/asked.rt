//! How items are to be paired.

/// The keys that name an item, in the order in which they are tried.
pub const TABLE: [&str; 7] = ["name", "id", "key", "alert", "uid", "containerPort", "path"];

/// How items are to be paired.
#[derive(Clone, Copy)]
pub struct Asked<'a> {
    /// By equal ends, by what stands once on either side, and then in turn: no pairs cross.
    pub by_position: bool,
    /// Names that are tried before those of the table: keys of mappings, parted by `.`, from the item down.
    pub by: &'a [&'a str],
}
