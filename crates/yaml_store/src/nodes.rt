//! A node in sixteen bytes.
ghost use Rattle.std.specs.Prelude.{◌≡◌};
ghost use Rattle.yaml_store.specs.StoreModel.{place_of, kind_of};

/// The places from one up to another.
#[derive(Clone, Copy)]
pub struct Span {
    pub start: u32,
    pub end: u32,
}

/// What a node is.
#[derive(Clone, Copy, PartialEq, Eq)]
#[repr(u8)]
pub enum Kind {
    Scalar,
    Sequence,
    Mapping,
}

/// A kind of collection.
#[derive(Clone, Copy, Debug, PartialEq, Eq)]
pub enum Collection {
    Sequence,
    Mapping,
}

impl Collection {
    /// The kind of its node.
    pub(crate) fn kind(self) -> Kind
        ensures { result ≡ kind_of self }
    {
        match self {
            Collection::Sequence => Kind::Sequence,
            Collection::Mapping => Kind::Mapping,
        }
    }
}

/// A node: what it is, its height, the number of its tag, and where its content, its items or its entries
/// stand among those of all nodes.
#[derive(Clone, Copy)]
pub struct Node {
    pub kind: Kind,
    pub height: u16,
    pub tag: u32,
    pub span: Span,
}

const _: () = prove!(size_of::<Node>() == 16);

/// What a node is, and where its content, its items or its entries stand.
#[derive(Clone, Copy)]
pub enum Place {
    Scalar(Span),
    Sequence(Span),
    Mapping(Span),
}

impl Node {
    /// What it is, and where.
    pub fn place(&self) -> Place
        ensures { result ≡ place_of self.now }
    {
        match self.kind {
            Kind::Scalar => Place::Scalar(self.span),
            Kind::Sequence => Place::Sequence(self.span),
            Kind::Mapping => Place::Mapping(self.span),
        }
    }
}
