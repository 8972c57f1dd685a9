// Routes made at random, the same in every run.
use stage::{LawfulRow, Row};
use std::alloc::{AllocError, Global};

// All of them divide 120, so that every route repeats after 120 microseconds.
const CYCLES: [u32; 12] = [1, 2, 3, 4, 5, 6, 8, 10, 12, 15, 20, 24];

// A linear congruential generator.
#[derive(Drop)]
pub struct Random {
    state: u64,
}

impl Random {
    pub fn new(seed: u64) -> Random {
        Random { state: seed }
    }

    // A number below 2^31.
    fn draw(&mut self) -> u32 {
        self.state = self
            .state
            .wrapping_mul(6_364_136_223_846_793_005)
            .wrapping_add(1_442_695_040_888_963_407);
        (self.state >> 33) as u32
    }

    // A stage of up to four marks. The first starts anywhere in the cycle, and the last may stop in the next one.
    fn row(&mut self, heap: Global) -> Result<Option<Row>, AllocError> {
        let cycle = CYCLES[(self.draw() % 12) as usize];
        let first = self.draw() % cycle.max(1);
        let end = cycle.saturating_add(first);
        let mut marks: Vec<(u32, u32)> = Vec::new(heap);
        for a in 0..4 {
            let start = marks
                .last()
                .map_or(first, |(_, free)| free.saturating_add(self.draw() % 3));
            if start >= cycle || self.draw() % 4 < a {
                break;
            }
            let stop = end.min(start.saturating_add(1 + self.draw() % 4));
            marks.push((start, stop))?;
        }
        let rank = (self.draw() % 3) as u8;
        Ok(Row::of_marks(cycle, rank, marks.as_slice()))
    }

    // A route of 1 to 6 stages.
    pub fn route(&mut self, heap: Global) -> Result<Vec<LawfulRow>, AllocError> {
        let mut rows = Vec::new(heap);
        for _ in 0..1 + self.draw() % 6 {
            if let Some(row) = self.row(heap)?.and_then(LawfulRow::new) {
                rows.push(row)?;
            }
        }
        Ok(rows)
    }
}
