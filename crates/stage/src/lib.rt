// One stage in memory: its row, the four laws, and when its instances start and stop; and the macro-period.
#![tactic(auto)]

pub mod lawful;
pub mod period;
pub mod row;

pub use lawful::LawfulRow;
pub use period::{MAX_MACRO_PERIOD, macro_period};
pub use row::{MAX_CYCLE, MAX_MARKS, Row};
