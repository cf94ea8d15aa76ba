//! How a stream is written as YAML.

/// In which order entries are written, and whether aliases are.
#[derive(Clone, Copy, PartialEq, Eq)]
pub enum Manner {
    /// In that of the canonical text, with aliases written out.
    ByKey,
    /// In that of the source, with aliases written out.
    AsRead,
    /// In that of the canonical text, with its anchors and aliases.
    Sharing,
}
