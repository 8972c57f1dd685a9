// What the numbers on a route name.
ghost use Rattle.std.specs.Prelude.{◌≡◌};
ghost use Rattle.book.specs.Entries.{entry_of};

use platform::{MAX_NUMBER, Number};
use std::fmt;

// A route number up to `MAX_NUMBER` is a title task's, and the numbers after it name the platform's stages from 0 on.
#[derive(Clone, Copy, Debug, PartialEq, Eq)]
pub enum Entry {
    Task(Number),
    Stage(Number),
}

impl From<Number> for Entry {
    ghost from_gives = { λ number entry. entry ≡ entry_of number };

    fn from(number: Number) -> Entry {
        match number.checked_sub(MAX_NUMBER + 1) {
            Some(stage) => Entry::Stage(stage),
            None => Entry::Task(number),
        }
    }
}

impl fmt::Display for Entry {
    fn fmt<W: fmt::Write>(&self, f: &mut fmt::Formatter<W>) -> fmt::Result {
        match self {
            Entry::Task(number) => write!(f, "task {number}"),
            Entry::Stage(number) => write!(f, "stage {number}"),
        }
    }
}
