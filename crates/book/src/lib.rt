// The latency book: a title's tasks and its route over one platform.
#![tactic(auto)]

pub mod answer;
pub mod book;
pub mod entry;
pub mod fault;
mod table;
#[cfg(test)]
mod tests;

pub use answer::Answer;
pub use book::{Book, Open};
pub use entry::Entry;
pub use fault::{AnalysisFault, Fault, RouteFault, TaskFault};
