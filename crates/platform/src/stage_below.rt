// A stage below a layer, with what its platform tells.
ghost use Rattle.std.specs.Prelude.{◌≡◌, ◌*◌, ◌<◌, Some, None, MatchOption};
ghost use Rattle.platform.specs.Platforms.{described, marked};
ghost use Rattle.platform.specs.Layers.{instanced, marks_before};

use crate::platform::{Number, Platform};
use crate::thin::MAX_EVERY;

// The stage of a number on the platform below, as it was described.
#[derive(Drop)]
pub struct StageBelow<'a, P: Platform> {
    platform: &'a P,
    number: Number,
    pub cycle: u32,
    pub count: u8,
    pub rank: u8,
    ghost told: { Some (cycle, count, rank) ≡ described (P.Platform.meaning platform.now number) },
}

impl<'a, P: Platform> StageBelow<'a, P> {
    ghost use Rattle.platform.specs.StageBelow.{stage_below};

    // The stage of a number; nothing where it is absent. Here and in the layers absence is left by `let .. else`, as
    // `docs/DECISIONS.md` has it: what is absent below is absent above.
    pub fn find(platform: &'a P, number: Number) -> Option<StageBelow<'a, P>>
        ensures { MatchOption result (P.Platform.meaning platform.now number ≡ None) (λ s. stage_below P.Platform s ≡ P.Platform.meaning platform.now number) }
    {
        let Some((cycle, count, rank)) = platform.describe(number) else {
            return None;
        };
        Some(StageBelow {
            platform,
            number,
            cycle,
            count,
            rank,
        })
    }

    // Start and stop of mark `a`.
    fn mark(&self, a: u8) -> (u32, u32)
        requires { a < self.now.count }
        ensures { Some result ≡ marked (stage_below P.Platform self.now) a }
    {
        self.platform.mark(self.number, a).unwrap()
    }

    // When instance `i` starts and stops; the layers ask for the first 16 cycles.
    #[tactic(auto, using(crate::proofs::Told::instance_limits), unfolding(stage::specs::Stages::start_of, stage::specs::Stages::stop_of))]
    pub fn instance(&self, i: u32) -> (u32, u32)
        requires { i < MAX_EVERY * self.now.count }
        ensures { Some result ≡ instanced (stage_below P.Platform self.now) i }
    {
        let count = self.count as u32;
        let whole = i / count * self.cycle;
        let (start, stop) = self.mark((i % count) as u8);
        (whole + start, whole + stop)
    }

    // How many marks come before the first that starts at `end` or later, by halving: starts rise. The marks are asked
    // for one by one, so there is no slice to call `partition_point` on.
    #[tactic(auto, using(crate::proofs::Phasing::halving))]
    pub fn marks_before(&self, end: u32) -> u8
        ensures { result ≡ marks_before end (stage_below P.Platform self.now) }
    {
        let mut low = 0;
        let mut high = self.count;
        while low < high {
            let middle = (low + high) / 2;
            let (start, _) = self.mark(middle);
            if start < end {
                low = middle + 1;
            } else {
                high = middle;
            }
        }
        low
    }
}
