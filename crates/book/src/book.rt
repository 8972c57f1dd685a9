// The book.
ghost use Rattle.book.specs.Keeping.{Keeps};

use crate::table::Table;
use arrayvec::ArrayVec;
use path::MAX_LENGTH;
use platform::Number;

// An open book can be edited.
#[derive(Clone, Copy)]
pub struct Open;

// A title's tasks and its route over the platform `P`; a route without entries is none. `S` says what may be done with
// the book.
#[derive(Drop)]
pub struct Book<P, S> {
    platform: P,
    table: Table,
    route: ArrayVec<Number, MAX_LENGTH>,
    state: S,
    ghost keeps: { ∥ Keeps table route ∥₁ },
}

mod edits;
mod query;
mod reads;
mod rows;
