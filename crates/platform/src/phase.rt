// A layer that moves every stage later within its cycle.
ghost use Rattle.std.specs.Prelude.{◌≡◌};
ghost use Rattle.platform.specs.Phases.{EveryPhase, phased};
ghost use Rattle.platform.specs.LayerSoundness.{phased_sound};

use crate::platform::{Number, Platform};
use crate::stage_below::StageBelow;

// Everything happens `shift` microseconds later than below, in each cycle.
#[derive(Clone, Copy)]
pub struct Phase<P> {
    below: P,
    shift: u32,
}

impl<P> Phase<P> {
    // A phase on a platform. Of every lawful stage it moves each start by its shift, round the cycle, and keeps the
    // lengths.
    #[tactic(auto, using(crate::proofs::Layers::every_phase))]
    pub fn new(below: P, shift: u32) -> Phase<P>
        ensures platform { result.below ≡ below }
        ensures moved { result.shift ≡ shift }
        ensures starts { EveryPhase }
    {
        Phase { below, shift }
    }
}

impl<P: Platform> Platform for Phase<P> {
    ghost meaning = { λ p n. phased p.shift (P.Platform.meaning p.below n) };

    ghost sound = { λ p n. phased_sound p.shift n (P.Platform.meaning p.below n) (P.Platform.sound p.below n) };

    #[tactic(auto, using(crate::proofs::Phasing::phase_described))]
    fn describe(&self, number: Number) -> Option<(u32, u8, u8)> {
        self.below.describe(number)
    }

    #[tactic(auto, using(crate::specs::LayerSoundness::phase_answers))]
    fn mark(&self, number: Number, a: u8) -> Option<(u32, u32)> {
        let Some(stage) = StageBelow::find(&self.below, number) else {
            return None;
        };
        if a >= stage.count {
            return None;
        }
        let moved = self.shift % stage.cycle;
        // marks that start from here on leave the cycle, and come first in the next
        let end = stage.cycle - moved;
        let first = stage.marks_before(end);
        let (start, stop) = stage.instance(first as u32 + a as u32);
        Some((start - end, stop - end))
    }
}
