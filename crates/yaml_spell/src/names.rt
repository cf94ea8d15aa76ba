//! What is known of the nodes of each rank in the document that is being written.
ghost use Rattle.std.specs.Prelude.{◌≡◌, ◌<◌, ◌≤◌, length};
ghost use Rattle.std.specs.List.{count_by, All};
ghost use Rattle.std.proofs.Props.{props};
ghost use Rattle.yaml_spell.specs.Known.{is_named, met_state, state_number, state_of};

use std::alloc::Global;
use yaml_text::fault::Fault;

/// How a rank is known in a document.
#[derive(Clone, Copy)]
pub(crate) enum State {
    /// No node of it was met.
    Unseen,
    /// One node was met.
    Seen,
    /// A second one was met, and no name is given.
    Repeated,
    /// Its nodes have the name of this number.
    Named(usize),
}

/// How a node begins.
#[derive(Clone, Copy)]
pub enum Opening {
    /// Without an anchor.
    Plain,
    /// With the anchor of this number.
    Anchored(usize),
    /// It is the alias of this number, and nothing else.
    Alias(usize),
}

/// In which document a rank was met last, and the mark of the state that it is in there.
#[derive(Clone, Copy)]
pub(crate) struct Known {
    pub document: u32,
    pub mark: u32,
}

const _: () = prove!(size_of::<Known>() == 8);

/// What is known of a rank before the first document.
const UNKNOWN: Known = Known {
    document: 0,
    mark: 0,
};

/// The names of more ranks would have numbers that have no mark.
const MOST_RANKS: usize = 4_294_967_292;

/// What is known of each rank in one document. Entries of earlier documents are recognised by their numbers.
#[derive(Drop)]
pub struct Names {
    states: Vec<Known>,
    document: u32,
    count: u32,
    ghost stamped: { All (λ k. k.document ≤ document) states.items } by { Prim.hlevel props },
    ghost few: { count ≤ count_by (is_named document) states.items },
    ghost markable: { length states.items ≤ 4294967292 },
}

impl State {
    /// The state that has this mark.
    fn marked(mark: u32) -> State
        ensures is { result ≡ state_of mark }
        ensures positive { 0 < state_number result }
        ensures small { state_number result ≤ 4294967293 }
    {
        match mark {
            0 => State::Unseen,
            1 => State::Seen,
            2 => State::Repeated,
            name => State::Named(name as usize - 2),
        }
    }

    /// Its mark: names have theirs behind those of the other states.
    fn mark(self) -> u32
        requires positive { 0 < state_number self }
        requires small { state_number self ≤ 4294967293 }
        ensures { state_of result ≡ self }
    {
        match self {
            State::Unseen => 0,
            State::Seen => 1,
            State::Repeated => 2,
            State::Named(number) => number as u32 + 2,
        }
    }

    /// The state once one more node is met.
    fn met(self) -> State
        ensures is { result ≡ met_state self }
        ensures number { state_number result ≡ state_number self }
    {
        match self {
            State::Unseen => State::Seen,
            State::Seen => State::Repeated,
            known => known,
        }
    }
}

impl Names {
    ghost use Rattle.std.specs.Prelude.{◌≡◌, ◌<◌, IfOk, IfErr};
    ghost use Rattle.yaml_spell.specs.declared.names.State.TheVariants.{Unseen};
    ghost use Rattle.yaml_spell.specs.Known.{is_unseen, state_number};
    ghost use Rattle.yaml_spell.specs.NamesView.{ranks_in, count_of, table_of, met_at, opening, rank_begun, given_of, opening_number};

    /// Nothing is known of so many ranks, and no document was begun. More than 4,294,967,292 ranks are rejected as want of
    /// memory.
    pub fn new(alloc: Global, len: usize) -> Result<Names, Fault>
        ensures long { IfOk result (λ names. ranks_in names ≡ len) }
        ensures err { IfErr result (λ fault. fault ≡ Fault.OutOfMemory) }
    {
        if len > MOST_RANKS {
            return Err(Fault::OutOfMemory);
        }
        let mut states = Vec::with_capacity(alloc, len)?;
        states.resize(len, UNKNOWN)?;
        Ok(Names {
            states,
            document: 0,
            count: 0,
        })
    }

    /// Begins the next document, in which nothing is known.
    pub(crate) fn begin(&mut self)
        ensures long { ranks_in self.new ≡ ranks_in self.old }
        ensures count { count_of self.new ≡ 0 }
        ensures table { table_of self.new ≡ (λ _. Unseen) }
    {
        self.count = 0;
        if self.document == u32::MAX {
            self.states.fill(UNKNOWN);
            self.document = 0;
        }
        self.document += 1;
    }

    /// How a rank is known.
    fn state(&self, rank: usize) -> State
        requires { rank < ranks_in self.now }
        ensures is { result ≡ table_of self.now rank }
        ensures positive { 0 < state_number result }
        ensures small { state_number result ≤ 4294967293 }
    {
        let known = self.states[rank];
        if known.document == self.document {
            State::marked(known.mark)
        } else {
            State::Unseen
        }
    }

    /// Notes one more node of a rank. The answer is whether it is the first one.
    pub(crate) fn meet(&mut self, rank: usize) -> bool
        requires { rank < ranks_in self.old }
        ensures first { result ≡ is_unseen (table_of self.old rank) }
        ensures table { table_of self.new ≡ met_at rank (table_of self.old) }
        ensures long { ranks_in self.new ≡ ranks_in self.old }
        ensures count { count_of self.new ≡ count_of self.old }
    {
        let state = self.state(rank);
        self.states[rank] = Known {
            document: self.document,
            mark: state.met().mark(),
        };
        matches!(state, State::Unseen)
    }

    /// How the next node of a rank begins. The first one of a rank that comes again gets the next
    /// name.
    pub(crate) fn open(&mut self, rank: usize) -> Opening
        requires { rank < ranks_in self.old }
        ensures opening { result ≡ opening (count_of self.old) (table_of self.old rank) }
        ensures positive { 0 < opening_number result }
        ensures given { given_of self.new ≡ rank_begun rank (given_of self.old) }
        ensures long { ranks_in self.new ≡ ranks_in self.old }
    {
        match self.state(rank) {
            State::Named(number) => Opening::Alias(number),
            State::Repeated => {
                self.count += 1;
                let number = self.count as usize;
                self.states[rank] = Known {
                    document: self.document,
                    mark: State::Named(number).mark(),
                };
                Opening::Anchored(number)
            }
            _ => Opening::Plain,
        }
    }
}
