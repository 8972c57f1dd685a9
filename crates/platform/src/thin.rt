// A layer that keeps one of every few instances.
ghost use Rattle.std.specs.Prelude.{◌≡◌, ◌≤◌, true, None, MatchOption};
ghost use Rattle.platform.specs.StageBelow.{stage_below};
ghost use Rattle.platform.specs.Thins.{EveryThinning, thinnable, thinned};
ghost use Rattle.platform.specs.LayerSoundness.{thinned_sound};

use crate::platform::{Number, Platform};
use crate::stage_below::StageBelow;
use stage::MAX_CYCLE;

// Instance i of a stage is instance `every` × i + `from` of the stage below. `every` is 1 to 16 and `from` is below
// it; otherwise there are no stages.
#[derive(Clone, Copy)]
pub struct Thin<P> {
    below: P,
    every: u32,
    from: u32,
}

pub const MAX_EVERY: u32 = 16;

impl<P> Thin<P> {
    // A thin on a platform. Instance i of a thinned stage is instance `every` × i + `from` below, for ever.
    #[tactic(auto, using(crate::proofs::Layers::every_thinning))]
    pub fn new(below: P, every: u32, from: u32) -> Thin<P>
        ensures platform { result.below ≡ below }
        ensures picked { (result.every ≡ every) × (result.from ≡ from) }
        ensures instances { EveryThinning }
    {
        Thin { below, every, from }
    }

    // Whether a stage of this cycle can be thinned.
    fn is_thinnable(&self, cycle: u32) -> bool
        requires { cycle ≤ MAX_CYCLE }
        ensures { result ≡ thinnable self.now.every self.now.from cycle }
    {
        (1..=MAX_EVERY).contains(&self.every)
            && self.from < self.every
            && self.every * cycle <= MAX_CYCLE
    }
}

impl<P: Platform> Thin<P> {
    // The stage below, where it is there and can be thinned. Layers leave by `let .. else` where a stage is absent below;
    // `docs/DECISIONS.md` says so.
    #[tactic(auto, unfolding(crate::specs::Thins::thinned))]
    fn stage_below(&self, number: Number) -> Option<StageBelow<'_, P>>
        ensures { MatchOption result (thinned self.now.every self.now.from (P.Platform.meaning self.now.below number) ≡ None) (λ s. (stage_below P.Platform s ≡ P.Platform.meaning self.now.below number) × (thinnable self.now.every self.now.from s.cycle ≡ true)) }
    {
        let Some(stage) = StageBelow::find(&self.below, number) else {
            return None;
        };
        self.is_thinnable(stage.cycle).then_some(stage)
    }
}

impl<P: Platform> Platform for Thin<P> {
    ghost meaning = { λ t n. thinned t.every t.from (P.Platform.meaning t.below n) };

    ghost sound = { λ t n. thinned_sound t.every t.from n (P.Platform.meaning t.below n) (P.Platform.sound t.below n) };

    #[tactic(auto, using(crate::specs::LayerSoundness::thin_answers), unfolding(crate::specs::Thins::thinned, crate::specs::Thins::thin_stage))]
    fn describe(&self, number: Number) -> Option<(u32, u8, u8)> {
        let Some(stage) = self.stage_below(number) else {
            return None;
        };
        Some((self.every * stage.cycle, stage.count, stage.rank))
    }

    #[tactic(auto, using(crate::specs::LayerSoundness::thin_answers), unfolding(crate::specs::Thins::thinned))]
    fn mark(&self, number: Number, a: u8) -> Option<(u32, u32)> {
        let Some(stage) = self.stage_below(number) else {
            return None;
        };
        if a >= stage.count {
            return None;
        }
        Some(stage.instance(self.every * a as u32 + self.from))
    }
}
