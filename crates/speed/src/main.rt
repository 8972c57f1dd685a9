// How long the search for the largest delay takes, beside a plain walk over the last stage's instances.
// With no argument it only says what the search answers.
#![tactic(auto)]

mod walk;

use anyhow::Context;
use path::{Delay, Semantics, largest_delay};
use stage::{LawfulRow, Row};
use std::env;
use std::time::Instant;

// A stage that starts with its cycle and runs for `length` microseconds.
fn one_mark(cycle: u32, length: u32) -> anyhow::Result<LawfulRow> {
    Row::of_marks(cycle, 1, &[(0, length)])
        .and_then(LawfulRow::new)
        .context("a row is against the laws")
}

// Times both ways on one route; the walk takes one macro-period of the last stage's instances and some more, since the
// first ones read from nothing.
fn time_both(rt: &HostRuntime, rows: &[LawfulRow], count: u64) -> anyhow::Result<()> {
    let mut witness = [0; 3];
    let start = Instant::now(rt)?;
    let answer = largest_delay(rows, Semantics::LL, &mut witness);
    let search = start.elapsed(rt)?;
    let start = Instant::now(rt)?;
    let walked = walk::largest(rows, count);
    let walk = start.elapsed(rt)?;
    let Delay {
        delay: searched,
        ..
    } = answer?;
    let stages = rows.len();
    let ratio = walk.as_micros().saturating_mul(100) / search.as_micros().max(1);
    let whole = ratio / 100;
    let rest = ratio % 100;
    println!(rt;
        "{stages} stages: search {search:?} for {searched}, walk {walk:?} for {walked}; walk / search {whole}.{rest:02}"
    )?;
    Ok(())
}

fn tell(rt: &HostRuntime, rows: &[LawfulRow]) -> anyhow::Result<()> {
    let mut witness = [0; 3];
    let stages = rows.len();
    match largest_delay(rows, Semantics::LL, &mut witness) {
        Ok(Delay { delay, .. }) => println!(rt; "{stages} stages: {delay}")?,
        Err(fault) => println!(rt; "{stages} stages: {fault:?}")?,
    }
    Ok(())
}

fn main(rt: HostRuntime) -> anyhow::Result<()> {
    let first = one_mark(9_999, 500)?;
    let second = one_mark(10_000, 700)?;
    let third = one_mark(1, 1)?;
    let pair = [first, second];
    let three = [first, second, third];
    if env::args(&rt)?.count() > 1 {
        time_both(&rt, &pair, 10_003)?;
        return time_both(&rt, &three, 100_030_000);
    }
    tell(&rt, &pair)?;
    tell(&rt, &three)
}
