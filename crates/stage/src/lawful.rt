// Rows that keep the laws, and when their instances start and stop.
ghost use Rattle.std.specs.Prelude.{◌≡◌, ℕ, ◌^◌, ◌<◌, [], ◌∷◌, IfSome, MatchOption};
ghost use Rattle.std.specs.Option.{SomeIff};
ghost use Rattle.stage.specs.Stages.{Lawful, mark_of, start_of, stop_of};
ghost use Rattle.stage.specs.Instances.{FirstFrom, InOrder};
ghost use Rattle.stage.specs.Rows.{Latest, StartBefore, stage_of, time_of};

use crate::row::{MAX_MARKS, Row};

// A row whose stage keeps the ranges and the four laws.
#[derive(Clone, Copy)]
pub struct LawfulRow {
    row: Row,
    ghost lawful: { ∥ Lawful (stage_of row) ∥₁ },
}

impl LawfulRow {
    ghost use Rattle.stage.specs.LawfulRow.{stage_in};

    // The row, where it keeps the laws; its instances then come one after the other for ever. This answers an `Option`,
    // since an error could say no more than that the row breaks them; it tests first, since a literal has to be lawful.
    pub fn new(row: Row) -> Option<LawfulRow>
        ensures refused { MatchOption result (Lawful (stage_of row) → ⊥) (λ l. l.row ≡ row) }
        ensures ordered { IfSome result (λ l. InOrder (stage_in l)) }
    {
        if row.is_lawful() {
            Some(LawfulRow { row })
        } else {
            None
        }
    }

    pub fn row(&self) -> &Row
        ensures value { result.now ≡ self.now.row }
        ensures lawful { Lawful (stage_of result.now) }
    {
        &self.row
    }

    // How many of its marks start before `time` within the cycle: the first ones, since starts rise.
    fn starts_before(&self, time: u64) -> usize
        ensures { StartBefore (stage_in self.now) time result }
    {
        let starts = &self.row.starts[..self.row.count as usize];
        starts.partition_point(|start| (*start as u64) < time)
    }

    // The time at which `marks`, the row's starts or its stops, has instance `i`; nothing where that passes 64 bits.
    // What `start` and `stop` share; a parameter that says which of them is asked would be no plainer than two names.
    fn time_of(&self, marks: &[u32; MAX_MARKS], i: u64) -> Option<u64>
        ensures { SomeIff result (time_of self.now.row marks.now i < 2 ^ 64) (time_of self.now.row marks.now i) }
    {
        let count = self.row.count as u64;
        let mark = marks[(i % count) as usize] as u64;
        (i / count)
            .checked_mul(self.row.cycle as u64)?
            .checked_add(mark)
    }

    // When instance `i` starts, or nothing where that passes 64 bits.
    pub fn start(&self, i: u64) -> Option<u64>
        ensures { SomeIff result (start_of (stage_in self.now) i < 2 ^ 64) (start_of (stage_in self.now) i) }
    {
        self.time_of(&self.row.starts, i)
    }

    // When instance `i` stops, or nothing where that passes 64 bits.
    pub fn stop(&self, i: u64) -> Option<u64>
        ensures { SomeIff result (stop_of (stage_in self.now) i < 2 ^ 64) (stop_of (stage_in self.now) i) }
    {
        self.time_of(&self.row.stops, i)
    }

    // The last mark that starts at or before `time`, or nothing where the first starts later.
    pub fn latest_mark(&self, time: u32) -> Option<usize>
        ensures { MatchOption result (time < (mark_of (stage_in self.now) 0).0) (Latest (stage_in self.now) time) }
    {
        self.starts_before(time as u64 + 1).checked_sub(1)
    }

    // The first instance that starts at or after `time`.
    pub fn next(&self, time: u64) -> u64
        ensures { FirstFrom (stage_in self.now) time result }
    {
        let cycle = self.row.cycle as u64;
        time / cycle * self.row.count as u64 + self.starts_before(time % cycle) as u64
    }
}

// The plainest row, which stands in the unused places of a vector of rows: a stage that always runs.
impl Default for LawfulRow {
    ghost use Rattle.stage.specs.Rows.{row_of};

    ghost is_default = { λ l. l.row ≡ row_of 1 0 ((0, 1) ∷ []) };

    fn default() -> LawfulRow {
        let mut row = Row {
            cycle: 1,
            count: 1,
            rank: 0,
            starts: [0; MAX_MARKS],
            stops: [0; MAX_MARKS],
        };
        row.stops[0] = 1;
        LawfulRow { row }
    }
}
