// Worked routes, run.
use crate::{Delay, MAX_LENGTH, SearchFault, Semantics, largest_delay};
use stage::{LawfulRow, Row};
use std::array;
use std::test::Fail;

// What stands in the buffer before a search.
const UNTOUCHED: u64 = 77;

// A stage with one mark.
fn one_mark(cycle: u32, start: u32, length: u32, rank: u8) -> Result<LawfulRow, Fail> {
    Row::of_marks(cycle, rank, &[(start, start.saturating_add(length))])
        .and_then(LawfulRow::new)
        .ok_or_else(|| Fail::new("a row is against the laws"))
}

// What the search answers, and the buffer after it.
fn search(
    rows: &[LawfulRow],
    semantics: Semantics,
) -> Result<(Delay, [u64; MAX_LENGTH]), SearchFault> {
    let mut witness = [UNTOUCHED; MAX_LENGTH];
    let delay = largest_delay(rows, semantics, &mut witness)?;
    Ok((delay, witness))
}

// That answer: a delay, its predecessor, and the path in front of what stood in the buffer.
fn answer(delay: u64, predecessor: Option<u64>, path: &[u64]) -> (Delay, [u64; MAX_LENGTH]) {
    let witness = array::from_fn(|k| path.get(k).copied().unwrap_or(UNTOUCHED));
    (Delay { delay, predecessor }, witness)
}

#[test]
fn quick_reader_and_slow_reader(rt: HostRuntime) -> Result<(), Fail> {
    let slow = one_mark(10_000, 0, 2_000, 5)?;
    let quick = one_mark(4_000, 0, 500, 1)?;
    for (semantics, delay, predecessor, path) in [
        (Semantics::LL, 8_500, None, [0, 2]),
        (Semantics::LF, 2_500, None, [1, 3]),
        (Semantics::FL, 18_500, Some(1), [2, 7]),
        (Semantics::FF, 12_500, Some(0), [1, 3]),
    ] {
        assert_eq!(rt;
            search(&[slow, quick], semantics)?,
            answer(delay, predecessor, &path)
        );
    }
    for (semantics, delay, predecessor, path) in [
        (Semantics::LL, 6_000, None, [4, 2]),
        (Semantics::LF, 6_000, None, [4, 2]),
        (Semantics::FL, 16_000, Some(4), [7, 3]),
        (Semantics::FF, 16_000, Some(4), [7, 3]),
    ] {
        assert_eq!(rt;
            search(&[quick, slow], semantics)?,
            answer(delay, predecessor, &path)
        );
    }
    Ok(())
}

#[test]
fn a_stage_alone_and_twice(rt: HostRuntime) -> Result<(), Fail> {
    let row = one_mark(10_000, 0, 2_000, 5)?;
    for (semantics, delay, predecessor, path) in [
        (Semantics::LL, 2_000, None, [0]),
        (Semantics::LF, 2_000, None, [0]),
        (Semantics::FL, 12_000, Some(0), [1]),
        (Semantics::FF, 12_000, Some(0), [1]),
    ] {
        assert_eq!(rt;
            search(&[row], semantics)?,
            answer(delay, predecessor, &path)
        );
    }
    for (semantics, delay, predecessor, path) in [
        (Semantics::LL, 12_000, None, [0, 1]),
        (Semantics::LF, 12_000, None, [0, 1]),
        (Semantics::FL, 22_000, Some(0), [1, 2]),
        (Semantics::FF, 22_000, Some(0), [1, 2]),
    ] {
        assert_eq!(rt;
            search(&[row, row], semantics)?,
            answer(delay, predecessor, &path)
        );
    }
    Ok(())
}

#[test]
fn three_stages(rt: HostRuntime) -> Result<(), Fail> {
    let quick = one_mark(4_000, 0, 500, 9)?;
    let middle = one_mark(10_000, 0, 3_000, 5)?;
    let slow = one_mark(20_000, 0, 5_000, 1)?;
    for (semantics, delay, predecessor, path) in [
        (Semantics::LL, 5_000, None, [0, 0, 0]),
        (Semantics::LF, 5_000, None, [0, 0, 0]),
        (Semantics::FL, 25_000, Some(0), [5, 2, 1]),
        (Semantics::FF, 25_000, Some(0), [5, 2, 1]),
    ] {
        assert_eq!(rt;
            search(&[quick, middle, slow], semantics)?,
            answer(delay, predecessor, &path)
        );
    }
    Ok(())
}

#[test]
fn refusals(rt: HostRuntime) -> Result<(), Fail> {
    let first = one_mark(1_000_000, 0, 10, 5)?;
    let second = one_mark(999_999, 0, 10, 5)?;
    assert_eq!(rt;
        largest_delay(&[], Semantics::LL, &mut []),
        Err(SearchFault::Length)
    );
    assert_eq!(rt;
        largest_delay(&[first; 17], Semantics::LL, &mut [0; 17]),
        Err(SearchFault::Length)
    );
    assert_eq!(rt;
        largest_delay(&[first, second], Semantics::LL, &mut []),
        Err(SearchFault::MacroPeriod)
    );
    assert_eq!(rt;
        largest_delay(&[first], Semantics::LL, &mut []),
        Err(SearchFault::Buffer)
    );
    Ok(())
}
