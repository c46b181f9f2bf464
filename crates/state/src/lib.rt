// The state and the tally as they are lent, what an entry holds, and the fresh state.
#![tactic(auto)]

mod state;
mod table;
mod tally;

pub use state::State;
pub use table::{NO_PARENT, Table};
pub use tally::Tally;
