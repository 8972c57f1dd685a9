// Platforms: what a handheld's maker says of its stages, and the profiles that describe one.
#![tactic(auto)]

pub mod lawful_record;
pub mod laws;
pub mod metronome;
pub mod phase;
pub mod platform;
pub mod record;
mod stage_below;
#[cfg(test)]
mod tests;
pub mod thin;

pub use lawful_record::{LawfulRecord, RecordFault};
pub use laws::layer_examples_hold;
pub use metronome::Metronome;
pub use phase::Phase;
pub use platform::{MAX_NUMBER, Number, Platform};
pub use record::Record;
pub use thin::{MAX_EVERY, Thin};
