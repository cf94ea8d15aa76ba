//! Where a node stands.

/// The context of a production (YAML 1.2.2, 4.2).
#[derive(Clone, Copy, Debug, PartialEq, Eq)]
pub enum Ctx {
    /// block-out: outside a block sequence.
    BlockOut,
    /// block-in: inside a block sequence.
    BlockIn,
    /// flow-out: a value outside a flow collection.
    FlowOut,
    /// flow-in: a value inside a flow collection.
    FlowIn,
    /// block-key: an implicit key directly inside a block mapping.
    BlockKey,
    /// flow-key: an implicit key inside a flow mapping.
    FlowKey,
}
