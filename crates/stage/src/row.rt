// A stage as plain numbers.
ghost use Rattle.std.specs.Prelude.{◌≡◌, ◌≤◌, ◌↔◌, length, IfSome, IsSome, IsTrue};
ghost use Rattle.stage.specs.Stages.{Lawful, LawfulMark};

// The most marks a stage has.
pub const MAX_MARKS: usize = 48;

// The longest cycle, in microseconds.
pub const MAX_CYCLE: u32 = 100_000_000;

// A row is plain numbers in fixed places, as it is keyed in: so its two lists and their count stand side by side.
// A stage repeats its marks once in each cycle, of `cycle` microseconds; of `starts` and `stops` the first
// `count` entries are its marks. A higher rank is more urgent.
#[derive(Clone, Copy, Debug)]
pub struct Row {
    pub cycle: u32,
    pub count: u8,
    pub rank: u8,
    pub starts: [u32; MAX_MARKS],
    pub stops: [u32; MAX_MARKS],
}

// Whether a mark keeps the laws within its cycle; `floor` is the stop of the mark before it, or 0.
fn is_lawful_mark(cycle: u32, floor: u32, start: u32, stop: u32) -> bool
    ensures { IsTrue result ↔ LawfulMark cycle floor start stop }
{
    floor <= start && start < cycle && start < stop
}

impl Row {
    ghost use Rattle.stage.specs.Rows.{row_of, stage_of};

    // The row of these marks, with zeros in the entries that are not used; nothing where there are too many.
    pub fn of_marks(cycle: u32, rank: u8, marks: &[(u32, u32)]) -> Option<Row>
        ensures few { IsSome result ↔ (length marks.now ≤ 48) }
        ensures row { IfSome result (λ r. r ≡ row_of cycle rank marks.now) }
        ensures stage { IfSome result (λ r. stage_of r ≡ record { cycle = cycle; rank = rank; marks = marks.now }) }
    {
        if marks.len() > MAX_MARKS {
            return None;
        }
        let mut starts = [0; MAX_MARKS];
        let mut stops = [0; MAX_MARKS];
        // only the places of marks are written: `array::from_fn` would ask for each of the 48
        for (a, (start, stop)) in marks.iter().enumerate() {
            starts[a] = *start;
            stops[a] = *stop;
        }
        Some(Row {
            cycle,
            count: marks.len() as u8,
            rank,
            starts,
            stops,
        })
    }

    // Whether the row keeps the ranges and the four laws.
    pub fn is_lawful(&self) -> bool
        ensures { IsTrue result ↔ Lawful (stage_of self.now) }
    {
        let count = self.count as usize;
        if self.cycle < 1 || self.cycle > MAX_CYCLE {
            return false;
        }
        if count < 1 || count > MAX_MARKS {
            return false;
        }
        let mut floor = 0;
        for (start, stop) in self.starts[..count].iter().zip(&self.stops[..count]) {
            if !is_lawful_mark(self.cycle, floor, *start, *stop) {
                return false;
            }
            floor = *stop;
        }
        floor <= self.cycle + self.starts[0]
    }
}
