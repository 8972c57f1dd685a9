// The layers over a row, run.
ghost use Rattle.std.specs.Prelude.{◌≡◌, ◌≤◌, ◌<◌, length, None, MatchOption};
ghost use Rattle.stage.specs.Stages.{Lawful};
ghost use Rattle.stage.specs.Rows.{stage_of};
ghost use Rattle.platform.specs.Singles.{single, single_sound};

use crate::{MAX_NUMBER, Number, Phase, Platform, Thin};
use stage::{LawfulRow, MAX_MARKS, Row};
use std::array;
use std::test::Fail;

// One row under every number.
#[derive(Clone, Copy)]
struct Single {
    row: LawfulRow,
}

impl Single {
    // The row of a number that has a stage.
    fn row(&self, number: Number) -> Option<&Row>
        ensures { MatchOption result (single self.now.row number ≡ None) (λ r. (single self.now.row number ≡ Some (stage_of r.now)) × Lawful (stage_of r.now)) }
    {
        if number > MAX_NUMBER {
            return None;
        }
        Some(self.row.row())
    }
}

impl Platform for Single {
    ghost meaning = { λ p n. single p.row n };

    ghost sound = { λ p n. single_sound p.row n };

    #[tactic(auto, using(stage::proofs::Marks::count_is))]
    fn describe(&self, number: Number) -> Option<(u32, u8, u8)> {
        let row = self.row(number)?;
        Some((row.cycle, row.count, row.rank))
    }

    #[tactic(auto, using(stage::proofs::Marks::count_is, stage::proofs::Marks::mark_is))]
    fn mark(&self, number: Number, a: u8) -> Option<(u32, u32)> {
        let row = self.row(number)?;
        if a >= row.count {
            return None;
        }
        Some((row.starts[a as usize], row.stops[a as usize]))
    }
}

// A row of rank 7 with these marks.
fn row_of(cycle: u32, marks: &[(u32, u32)]) -> Result<Single, Fail> {
    Row::of_marks(cycle, 7, marks)
        .and_then(LawfulRow::new)
        .map(|row| Single { row })
        .ok_or_else(|| Fail::new("a row is against the laws"))
}

// What a platform answers of a stage: its description and the first marks.
#[derive(Clone, Copy, Debug, PartialEq)]
struct Answers {
    description: Option<(u32, u8, u8)>,
    marks: [Option<(u32, u32)>; 3],
}

const ABSENT: Answers = Answers {
    description: None,
    marks: [None; 3],
};

// The answers of a stage of rank 7 with just these marks.
fn stage_with(cycle: u32, marks: &[(u32, u32)]) -> Answers
    requires { length marks.now < 3 }
{
    Answers {
        description: Some((cycle, marks.len() as u8, 7)),
        marks: [marks.first().copied(), marks.get(1).copied(), None],
    }
}

fn stage_3<P: Platform>(platform: &P) -> Answers {
    Answers {
        description: platform.describe(3),
        marks: [
            platform.mark(3, 0),
            platform.mark(3, 1),
            platform.mark(3, 2),
        ],
    }
}

// The row of most tests.
fn two_marks() -> Result<Single, Fail> {
    row_of(10_000, &[(1_000, 2_000), (6_000, 9_000)])
}

#[test]
fn a_mark_wraps_and_every_second_stays(rt: HostRuntime) -> Result<(), Fail> {
    let below = two_marks()?;
    assert_eq!(rt;
        stage_3(&Phase::new(below, 5_000)),
        stage_with(10_000, &[(1_000, 4_000), (6_000, 7_000)])
    );
    assert_eq!(rt;
        stage_3(&Thin::new(below, 2, 1)),
        stage_with(20_000, &[(6_000, 9_000), (16_000, 19_000)])
    );
    Ok(())
}

#[test]
fn phases_of_nothing_and_of_much(rt: HostRuntime) -> Result<(), Fail> {
    let below = two_marks()?;
    assert_eq!(rt;
        stage_3(&Phase::new(below, 0)),
        stage_with(10_000, &[(1_000, 2_000), (6_000, 9_000)])
    );
    assert_eq!(rt;
        stage_3(&Phase::new(below, 10_000)),
        stage_with(10_000, &[(1_000, 2_000), (6_000, 9_000)])
    );
    assert_eq!(rt;
        stage_3(&Phase::new(below, u32::MAX)),
        stage_with(10_000, &[(3_295, 6_295), (8_295, 9_295)])
    );
    assert_eq!(rt; Phase::new(below, 5_000).describe(128), None);
    Ok(())
}

#[test]
fn every_mark_wraps(rt: HostRuntime) -> Result<(), Fail> {
    assert_eq!(rt;
        stage_3(&Phase::new(two_marks()?, 9_500)),
        stage_with(10_000, &[(500, 1_500), (5_500, 8_500)])
    );
    Ok(())
}

#[test]
fn forty_eight_marks(rt: HostRuntime) -> Result<(), Fail> {
    let marks: [(u32, u32); MAX_MARKS] = array::from_fn(|a| (a as u32 * 100, a as u32 * 100 + 50));
    let phase = Phase::new(row_of(4_800, &marks)?, 150);
    assert_eq!(rt; phase.describe(3), Some((4_800, 48, 7)));
    assert_eq!(rt; phase.mark(3, 0), Some((50, 100)));
    assert_eq!(rt; phase.mark(3, 47), Some((4_750, 4_800)));
    assert_eq!(rt; phase.mark(3, 48), None);
    Ok(())
}

#[test]
fn a_mark_ends_past_the_cycle(rt: HostRuntime) -> Result<(), Fail> {
    let below = row_of(10_000, &[(500, 3_000), (8_000, 10_400)])?;
    assert_eq!(rt;
        stage_3(&Phase::new(below, 1_000)),
        stage_with(10_000, &[(1_500, 4_000), (9_000, 11_400)])
    );
    assert_eq!(rt;
        stage_3(&Phase::new(below, 2_500)),
        stage_with(10_000, &[(500, 2_900), (3_000, 5_500)])
    );
    assert_eq!(rt;
        stage_3(&Thin::new(below, 2, 1)),
        stage_with(20_000, &[(8_000, 10_400), (18_000, 20_400)])
    );
    Ok(())
}

#[test]
fn thins_within_the_limits_only(rt: HostRuntime) -> Result<(), Fail> {
    let below = two_marks()?;
    assert_eq!(rt;
        stage_3(&Thin::new(below, 1, 0)),
        stage_with(10_000, &[(1_000, 2_000), (6_000, 9_000)])
    );
    assert_eq!(rt;
        stage_3(&Thin::new(below, 16, 15)),
        stage_with(160_000, &[(76_000, 79_000), (156_000, 159_000)])
    );
    assert_eq!(rt; stage_3(&Thin::new(below, 0, 0)), ABSENT);
    assert_eq!(rt; stage_3(&Thin::new(below, 17, 0)), ABSENT);
    assert_eq!(rt; stage_3(&Thin::new(below, 3, 3)), ABSENT);
    let long = row_of(10_000_000, &[(0, 1)])?;
    assert_eq!(rt;
        stage_3(&Thin::new(long, 10, 0)),
        stage_with(100_000_000, &[(0, 1)])
    );
    assert_eq!(rt; stage_3(&Thin::new(long, 11, 0)), ABSENT);
    Ok(())
}

#[test]
fn layers_on_layers(rt: HostRuntime) -> Result<(), Fail> {
    let below = two_marks()?;
    let phase = Phase::new(Thin::new(Phase::new(below, 5_000), 2, 1), 5_000);
    assert_eq!(rt;
        stage_3(&phase),
        stage_with(20_000, &[(1_000, 2_000), (11_000, 12_000)])
    );
    let thin = Thin::new(Phase::new(Thin::new(below, 2, 1), 5_000), 2, 0);
    assert_eq!(rt;
        stage_3(&thin),
        stage_with(40_000, &[(1_000, 4_000), (21_000, 24_000)])
    );
    Ok(())
}
