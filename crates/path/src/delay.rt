// The largest delay along a route of lawful rows.
ghost use Rattle.std.specs.Prelude.{◌≡◌, length, take, drop, MatchResult};
ghost use Rattle.path.specs.Given.{stages_of};
ghost use Rattle.path.specs.Figures.{Figure};
ghost use Rattle.path.specs.Refusals.{Accepted, Refused};

use crate::largest;
use crate::route::Route;
use crate::semantics::Semantics;
use stage::LawfulRow;
use thiserror::Error;

// The most stages a route has.
pub const MAX_LENGTH: usize = 16;

// The largest delay in microseconds, and the predecessor from which it is counted under FL and FF.
#[derive(Clone, Copy, PartialEq, Eq, Hash, Debug)]
pub struct Delay {
    pub delay: u64,
    pub predecessor: Option<u64>,
}

// Why a search is refused.
#[derive(Clone, Copy, PartialEq, Eq, Hash, Debug, Error)]
pub enum SearchFault {
    #[error("a route has 1 to 16 stages")]
    Length,
    #[error("the macro-period is above 100000000")]
    MacroPeriod,
    #[error("the buffer is shorter than the route")]
    Buffer,
}

// The largest delay along the rows. The path that takes it fills the front of `witness`: of those with the largest
// delay the one whose last instance is smallest. A refusal leaves `witness` as it was.
pub fn largest_delay(
    rows: &[LawfulRow],
    semantics: Semantics,
    witness: &mut [u64],
) -> Result<Delay, SearchFault>
    ensures refusal { MatchResult result (λ _. Accepted (stages_of rows.now) (length witness.old)) (λ fault. Refused fault (stages_of rows.now) (length witness.old)) }
    ensures figure { MatchResult result (λ d. Figure semantics (stages_of rows.now) d.delay d.predecessor (take (length rows.now) witness.new)) (λ _. witness.new ≡ witness.old) }
    ensures rest { drop (length rows.now) witness.new ≡ drop (length rows.now) witness.old }
{
    let route = Route::new(rows)?;
    let span = route.macro_period()?;
    if witness.len() < rows.len() {
        return Err(SearchFault::Buffer);
    }
    let longest = largest::longest_path(route, semantics, span);
    route.write_path(longest.last, witness);
    Ok(Delay {
        delay: longest.delay,
        predecessor: semantics.predecessor(longest.origin),
    })
}
