// Timed paths along stages, and the largest delay under each of the four ways to count it.
#![tactic(auto)]

pub mod delay;
mod hop;
mod largest;
pub mod laws;
mod route;
pub mod semantics;
#[cfg(test)]
mod tests;

pub use delay::{Delay, MAX_LENGTH, SearchFault, largest_delay};
pub use laws::{examples_hold, one_figure};
pub use semantics::{Semantics, UnknownSemantics};
