// Records of tasks.
ghost use Rattle.std.specs.Prelude.{◌≡◌, ◌≤◌, true, Some};
ghost use Rattle.platform.specs.Records.{in_range, offset_in_range, period_in_range, record_text, response_in_range};

use std::fmt;

// What is known of a task, in microseconds: it is released every `period`, for the first time at `offset`, and
// answers within `response`. A higher rank is more urgent.
#[derive(Clone, Copy, Debug, PartialEq, Eq)]
pub struct Record {
    pub period: u32,
    pub offset: u32,
    pub response: u32,
    pub rank: u8,
}

pub const MIN_PERIOD: u32 = 100;

pub const MAX_PERIOD: u32 = 1_000_000;

impl Record {
    pub fn has_period_in_range(self) -> bool
        ensures { result ≡ period_in_range self }
    {
        (MIN_PERIOD..=MAX_PERIOD).contains(&self.period)
    }

    pub fn has_offset_in_range(self) -> bool
        ensures { result ≡ offset_in_range self }
    {
        self.offset < self.period
    }

    pub fn has_response_in_range(self) -> bool
        ensures { result ≡ response_in_range self }
    {
        (1..=self.period).contains(&self.response)
    }

    // Whether the record is within all limits. This and the three tests above are public beside `LawfulRecord::try_from`,
    // which asks the three and says which limit is broken.
    pub fn is_in_range(self) -> bool
        ensures { result ≡ in_range self }
    {
        self.has_period_in_range() && self.has_offset_in_range() && self.has_response_in_range()
    }
}

impl fmt::Display for Record {
    ghost output = { λ r. Some (record_text r) };

    fn fmt<W: fmt::Write>(&self, f: &mut fmt::Formatter<W>) -> fmt::Result {
        let Record {
            period,
            offset,
            response,
            rank,
        } = *self;
        write!(
            f,
            "period {period} offset {offset} response {response} rank {rank}"
        )
    }
}
