// The macro-period of several cycles.
ghost use Rattle.std.specs.Prelude.{[], ◌∷◌};
ghost use Rattle.stage.specs.Periods.{GreatestCommonDivisor, IsMacroPeriod};

// The longest macro-period that is analysed, in microseconds.
pub const MAX_MACRO_PERIOD: u32 = 100_000_000;

// The greatest common divisor, by Euclid's algorithm.
fn gcd(mut a: u32, mut b: u32) -> u32
    ensures { GreatestCommonDivisor a b result }
{
    while b != 0 {
        let rest = a % b;
        a = b;
        b = rest;
    }
    a
}

// The least common multiple of two cycles, or nothing where none of at most `MAX_MACRO_PERIOD` exists.
fn lcm(a: u32, b: u32) -> Option<u32>
    ensures { IsMacroPeriod (a ∷ b ∷ []) result }
{
    if a < 1 || b < 1 {
        return None;
    }
    let product = (a / gcd(a, b)) as u64 * b as u64;
    // no `then_some`: the cast fits only after the test
    if product <= MAX_MACRO_PERIOD as u64 {
        Some(product as u32)
    } else {
        None
    }
}

// The least common multiple of the cycles, or nothing where none of at most `MAX_MACRO_PERIOD` exists.
pub fn macro_period(cycles: &[u32]) -> Option<u32>
    ensures { IsMacroPeriod cycles.now result }
{
    let mut period = 1;
    for cycle in cycles {
        period = lcm(period, *cycle)?;
    }
    Some(period)
}
