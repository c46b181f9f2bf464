/// What a run has cost and moved; all start at 0.
#[repr(C)]
#[derive(Clone, Copy, Debug, Default, PartialEq, Eq)]
pub struct Tally {
    pub rounds: u64,
    pub paid: u64,
    pub fetched: u64,
    pub evicted: u64,
    pub flushed: u64,
    pub standing: u64,
    pub wiped: u64,
    pub flushes: u64,
}
