// The figures of a book's route.
ghost use Rattle.std.specs.Prelude.{◌≡◌, length as long, take, drop, MatchResult};
ghost use Rattle.book.specs.Faults.{analysis_fault, refused_by};
ghost use Rattle.book.specs.Books.{ledger_of, view_of};
ghost use Rattle.book.specs.Ledgers.{QueryRefusal};
ghost use Rattle.book.specs.Queries.{QueryAnswer};

use crate::answer::Answer;
use crate::book::Book;
use crate::fault::AnalysisFault;
use path::{Delay, Semantics, largest_delay};
use platform::Platform;

impl<P: Platform, S> Book<P, S> {
    // The largest delay along the route under a semantics, which is given by any number, since the query refuses those
    // that no semantics has. The witness, a path that takes so long, is written to the front of the buffer. What lies
    // behind it stays as it was, and so does all of the buffer where the query is refused.
    pub fn query(&self, semantics: u8, buffer: &mut [u64]) -> Result<Answer, AnalysisFault>
        ensures refused { QueryRefusal (view_of P.Platform self.now) semantics (long buffer.old) (refused_by analysis_fault result) }
        ensures answered { MatchResult result (λ a. QueryAnswer (view_of P.Platform self.now) semantics a (take (long (ledger_of self.now).route) buffer.new)) (λ _. buffer.new ≡ buffer.old) }
        ensures rest { drop (long (ledger_of self.now).route) buffer.new ≡ drop (long (ledger_of self.now).route) buffer.old }
    {
        // no row is read where an entry or the number refuses the query, or where there is no route
        self.check_entries(self.route.as_slice())?;
        let kind = Semantics::try_from(semantics)?;
        if self.route.is_empty() {
            return Err(AnalysisFault::NoRoute);
        }
        let rows = self.route_rows();
        let Delay { delay, predecessor } = largest_delay(rows.as_slice(), kind, buffer)?;
        Ok(Answer {
            delay,
            length: rows.len(),
            predecessor,
        })
    }
}
