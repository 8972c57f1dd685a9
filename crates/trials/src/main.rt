// Compares the search for the largest delay with figures straight from the definition, on routes made at random.
#![tactic(auto)]

mod brute;
mod random;

use brute::Found;
use path::{MAX_LENGTH, Semantics, largest_delay};
use random::Random;
use stage::LawfulRow;

const ROUTES: u32 = 2_000;

// What stands in the part of the buffer that the search has to leave.
const UNTOUCHED: u64 = 77;

// Whether the search answers the figure, fills the front of the buffer with its path and leaves the rest.
fn agrees(rows: &[LawfulRow], semantics: Semantics, expected: &Found<'_>) -> bool {
    let mut witness = [UNTOUCHED; MAX_LENGTH];
    let answer = largest_delay(rows, semantics, &mut witness);
    // no `?` in a function that answers yes or no
    let Some((path, rest)) = witness.split_at_checked(rows.len()) else {
        return false;
    };
    answer == Ok(expected.delay)
        && path == expected.path.numbers.as_slice()
        && rest.iter().all(|number| *number == UNTOUCHED)
}

fn main(rt: HostRuntime) -> anyhow::Result<()> {
    let mut random = Random::new(2026);
    let mut agreed: u32 = 0;
    let mut compared: u32 = 0;
    for route in 0..ROUTES {
        let rows = random.route(rt.alloc())?;
        let paths = brute::paths_of(rt.alloc(), rows.as_slice())?;
        for semantics in [Semantics::LL, Semantics::LF, Semantics::FL, Semantics::FF] {
            compared = compared.saturating_add(1);
            match brute::figure(paths.as_slice(), semantics) {
                Some(found) if agrees(rows.as_slice(), semantics, &found) => agreed =
                    agreed.saturating_add(1),
                _ => {
                    let number = u8::from(semantics);
                    println!(rt;
                        "route {route}, semantics {number}: the search and the definition differ"
                    )?
                }
            }
        }
    }
    println!(rt; "{agreed} of {compared} figures agree")?;
    Ok(())
}
