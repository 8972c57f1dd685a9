// The interface of every platform.
ghost use Rattle.std.specs.Prelude.{◌≡◌, ℕ, Option};
ghost use Rattle.stage.specs.Stages.{Stage};
ghost use Rattle.platform.specs.Platforms.{Sound, described, marked};

// The number of a stage on a platform, or of a title's task.
pub type Number = u8;

// The highest number of a stage, and of a title's task.
pub const MAX_NUMBER: Number = 127;

// Two questions over stage numbers 0 to 127. A question changes nothing. The answers are plain tuples, which any writer
// of a platform can make and every layer takes apart.
pub trait Platform {
    // for each number absent, or one stage
    ghost meaning: { Self → ℕ → Option Stage };

    // the writer's proof that each stage keeps the laws and that there is none above 127
    ghost sound: { (p : Self) (n : ℕ) → Sound n (meaning p n) };

    // Nothing for an absent number, otherwise cycle, count and rank.
    fn describe(&self, number: Number) -> Option<(u32, u8, u8)>
        ensures { result ≡ described (meaning self.now number) };

    // Nothing where the stage is absent or has no mark `a`, otherwise the mark's start and stop.
    fn mark(&self, number: Number, a: u8) -> Option<(u32, u32)>
        ensures { result ≡ marked (meaning self.now number) a };
}
