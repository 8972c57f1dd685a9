// The metronome: a platform on a list of records.
ghost use Rattle.std.specs.Prelude.{◌≡◌, MatchOption};
ghost use Rattle.platform.specs.Records.{metronome_record, metronome_stage};
ghost use Rattle.platform.specs.Soundness.{metronome_sound};

use crate::lawful_record::LawfulRecord;
use crate::platform::{MAX_NUMBER, Number, Platform};
use crate::record::Record;

// Stage p is record p of the lent list; a record outside the limits is absent.
#[derive(Clone, Copy)]
pub struct Metronome<'a> {
    records: &'a [Record],
}

impl<'a> Metronome<'a> {
    pub fn new(records: &'a [Record]) -> Metronome<'a>
        ensures { result.records.now ≡ records.now }
    {
        Metronome { records }
    }

    // The record of a number that has a stage.
    #[tactic(auto, unfolding(crate::specs::Records::metronome_record))]
    fn record(&self, number: Number) -> Option<LawfulRecord>
        ensures { MatchOption result (metronome_record self.now.records.now number ≡ None) (λ l. metronome_record self.now.records.now number ≡ Some l.record) }
    {
        if number > MAX_NUMBER {
            return None;
        }
        let record = *self.records.get(usize::from(number))?;
        LawfulRecord::try_from(record).ok()
    }
}

impl<'a> Platform for Metronome<'a> {
    ghost meaning = { λ m n. metronome_stage m.records.now n };

    ghost sound = { λ m n. metronome_sound m.records.now n };

    fn describe(&self, number: Number) -> Option<(u32, u8, u8)> {
        self.record(number).map(LawfulRecord::describe)
    }

    fn mark(&self, number: Number, a: u8) -> Option<(u32, u32)> {
        self.record(number)?.mark(a)
    }
}
