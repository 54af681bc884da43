//! The patterns of the event grammar: the class of each name, the symbols that may occur on a
//! node's spine, and reading a spine symbol by symbol. Also the facts that the children of a node
//! decide: its partner, its looseness, its columns, and what its name reads.
#![tactic(auto)]

mod columns;
mod facts;
mod kinds;
mod seeking;
mod shape;
mod spine_state;
mod standings;
mod state;
mod summary;

pub use facts::{Fact, FactList, Facts, Pass, exits_line_ending};
pub use kinds::{Reading, Role, Standing, Symbol};
pub use shape::role_for;
pub use spine_state::SpineState;
pub use standings::standing_of;
pub use state::State;
pub use summary::Looseness;
