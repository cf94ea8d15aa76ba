//! The trees that are merged, by their nodes, and what is found of them.
use yaml_tree::node::NodeId;

/// What stands at one path of the base, of ours, of theirs and of the merge: a node, or nothing. Where no merge is given, the base
/// stands in its place.
#[derive(Clone, Copy, Debug, PartialEq, Eq)]
pub struct Sides {
    pub base: Option<NodeId>,
    pub ours: Option<NodeId>,
    pub theirs: Option<NodeId>,
    pub merge: Option<NodeId>,
}

/// One step down on all sides: to the documents at this place, or to the values of this key.
#[derive(Clone, Copy, Debug, PartialEq, Eq)]
pub enum Step {
    Document(usize),
    Value(NodeId),
}

/// How many places may be looked at, and how many told. Aliases make trees of which only a part can be looked at.
#[derive(Clone, Copy, Debug, PartialEq, Eq)]
pub struct Room {
    pub places: usize,
    pub lines: usize,
}

impl Room {
    ghost use Rattle.std.specs.Prelude.{◌≡◌, ◌-◌};
    ghost use Rattle.yaml_conflicts.specs.Rooms.{is_spent};

    /// Whether there is no room for another place or line.
    pub fn is_spent(self) -> bool
        ensures { result ≡ is_spent self }
    {
        self.places == 0 || self.lines == 0
    }

    /// The room that is left when one place was looked at.
    pub(crate) fn without_place(self) -> Room
        ensures places { result.places ≡ self.places - 1 }
        ensures lines { result.lines ≡ self.lines }
    {
        Room {
            places: self.places.saturating_sub(1),
            lines: self.lines,
        }
    }

    /// The room that is left when one place was told.
    pub(crate) fn without_line(self) -> Room
        ensures places { result.places ≡ self.places }
        ensures lines { result.lines ≡ self.lines - 1 }
    {
        Room {
            places: self.places,
            lines: self.lines.saturating_sub(1),
        }
    }
}

/// A path, the last step first, and what stands there.
#[derive(Debug, Drop)]
pub struct Conflict {
    pub path: Vec<Step>,
    pub sides: Sides,
}

/// The places that were found, the room that is left, and whether the places are all.
#[derive(Debug, Drop)]
pub struct Found {
    pub list: Vec<Conflict>,
    pub room: Room,
    pub whole: bool,
}
