//! Which nodes of the stream the nodes of the store stand for first.
ghost use Rattle.std.specs.Prelude.{◌≡◌, List, [], ◌∷◌, ◌++◌, length, IfOk};
ghost use Rattle.yaml_definitions.specs.model.Tree.{Tree};
ghost use Rattle.yaml_tree_builder.specs.FirstsModel.{Counted, Comes};

use std::alloc::Global;
use yaml_store::no_memory::NoMemory;

/// For each node of the store, the first node of the stream that it stands for. The nodes of the stream
/// are numbered in the order in which they close.
#[derive(Drop)]
pub(crate) struct Firsts {
    pub(crate) numbers: Vec<u32>,
    /// How many nodes of the stream closed.
    pub(crate) closed: u32,
}

impl Firsts {
    /// No node closed yet.
    pub(crate) fn new(alloc: Global) -> Firsts
        ensures { Counted [] result [] }
    {
        Firsts {
            numbers: Vec::new(alloc),
            closed: 0,
        }
    }

    /// A node closes, where the store has so many nodes: one more where none of those before stands for it.
    pub(crate) fn note(&mut self, len: usize) -> Result<(), NoMemory>
        ensures { (before after closed : List Tree) (t : Tree) → Counted before self.old closed → Comes before after t → len ≡ length after → IfOk result (λ _. Counted after self.new (closed ++ (t ∷ []))) }
    {
        if len > self.numbers.len() {
            self.numbers.push(self.closed)?;
        }
        let Some(closed) = self.closed.checked_add(1) else {
            return Err(NoMemory);
        };
        self.closed = closed;
        Ok(())
    }
}
