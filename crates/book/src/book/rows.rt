// The rows of the stages along a book's route.
ghost use Rattle.std.specs.Prelude.{◌≡◌, ◌<◌, [], length, take, Some, None, MatchOption};
ghost use Rattle.stage.specs.Rows.{stage_of};
ghost use Rattle.path.specs.Given.{stages_of};
ghost use Rattle.book.specs.Books.{ledger_of, view_of};
ghost use Rattle.book.specs.Ledgers.{entry_stage, first_absent, stages_along};

use crate::book::Book;
use arrayvec::ArrayVec;
use path::MAX_LENGTH;
use platform::{Number, Platform};
use stage::{LawfulRow, MAX_MARKS, Row};

impl<P: Platform, S> Book<P, S> {
    // The row of the stage that a route number names; nothing where it is neither held nor present. It is asked mark by
    // mark, since a platform lends no list.
    pub(crate) fn entry_row(&self, entry: Number) -> Option<LawfulRow>
        ensures { MatchOption result (entry_stage (view_of P.Platform self.now) entry ≡ None) (λ l. entry_stage (view_of P.Platform self.now) entry ≡ Some (stage_of l.row)) }
    {
        let (cycle, count, rank) = self.describe_entry(entry)?;
        let mut marks = ArrayVec::<(u32, u32), MAX_MARKS>::new();
        for a in 0..count {
            marks.push(self.mark_of_entry(entry, a)?);
        }
        LawfulRow::new(Row::of_marks(cycle, rank, marks.as_slice())?)
    }

    // The rows of the stages along the route, where none of its entries is absent. They are not handed out in a `Result`,
    // which would copy all of their room.
    pub(crate) fn route_rows(&self) -> ArrayVec<LawfulRow, MAX_LENGTH>
        requires { first_absent (entry_stage (view_of P.Platform self.now)) (ledger_of self.now).route ≡ None }
        ensures rows { stages_of result.items ≡ stages_along (view_of P.Platform self.now) }
        ensures long { length result.items ≡ length (ledger_of self.now).route }
    {
        let mut rows = ArrayVec::new();
        for entry in self.route.as_slice() {
            rows.push(self.entry_row(*entry).unwrap());
        }
        rows
    }
}
