use crate::table::{NO_PARENT, Table};

const CACHED: u8 = 1;

const NEVER: u8 = 0;

/// A table, and of each entry whether it is cached, its counter and its mark. In a sound state, entries past the last rule are blank.
// The C interface, and no heap: an array for each column.
#[repr(C)]
#[derive(Debug, PartialEq, Eq, Drop)]
pub struct State {
    pub table: Table,
    /// 1: yes, 0: no.
    // The C interface: a `bool` would leave some of the bits that C may write undefined.
    pub cached: [u8; 1024],
    pub counter: [u32; 1024],
    /// 0: never moved, 1: moved in the round beside it.
    // The C interface, as for `cached`.
    pub kind: [u8; 1024],
    pub round: [u32; 1024],
}

impl State {
    ghost use Rattle.std.specs.Prelude.{◌≡◌, ◌↔◌, IsTrue};
    ghost use Rattle.theory.specs.Sets.{◌∈◌};
    ghost use Rattle.state.specs.Columns.{read, told_parent, told_mark, Fresh};

    /// The state that a load leaves: an empty cache, all counters at 0, all marks at never.
    #[tactic(auto, using(crate::proofs::Columns::zeros))]
    pub fn fresh(table: Table) -> State
        ensures { Fresh table result }
    {
        State {
            table,
            cached: [0; 1024],
            counter: [0; 1024],
            kind: [0; 1024],
            round: [0; 1024],
        }
    }

    /// The entry's parent, if it has one.
    pub fn parent(&self, entry: usize) -> Option<usize>
        ensures { told_parent result ≡ (read self.now).parent entry }
    {
        match self.table.parent.get(entry) {
            None | Some(&NO_PARENT) => None,
            Some(&parent) => Some(usize::from(parent)),
        }
    }

    /// Whether the entry is cached; a flag that is neither 0 nor 1 is told as no.
    pub fn is_cached(&self, entry: usize) -> bool
        ensures { IsTrue result ↔ (entry ∈ (read self.now).cached) }
    {
        self.cached.get(entry) == Some(&CACHED)
    }

    /// The entry's counter, in a width in which the counters of all entries add up.
    pub fn counter(&self, entry: usize) -> u64
        ensures { result ≡ (read self.now).counter entry }
    {
        self.counter
            .get(entry)
            .map_or(0, |&counter| u64::from(counter))
    }

    /// The round in which the entry last moved, if it ever did; a kind that is neither 0 nor 1 is told as moved.
    pub fn mark(&self, entry: usize) -> Option<u32>
        ensures { told_mark result ≡ (read self.now).mark entry }
    {
        match self.kind.get(entry) {
            None | Some(&NEVER) => None,
            Some(_) => self.round.get(entry).copied(),
        }
    }
}
