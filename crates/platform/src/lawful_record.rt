// Records within all limits, and the stage that such a record means.
ghost use Rattle.std.specs.Prelude.{◌≡◌, true, Some};
ghost use Rattle.platform.specs.Platforms.{described, marked};
ghost use Rattle.platform.specs.Records.{in_range, record_stage};

use crate::record::Record;
use thiserror::Error;

// A record within all limits, so a stage of one mark in each cycle.
#[derive(Clone, Copy, Debug, PartialEq, Eq)]
pub struct LawfulRecord {
    pub record: Record,
    pub ghost lawful: { in_range «record» ≡ true },
}

// The first limit that a record is outside of.
#[derive(Clone, Copy, Debug, PartialEq, Eq, Error)]
pub enum RecordFault {
    #[error("the period is outside 100 to 1000000")]
    Period,
    #[error("the offset is not below the period")]
    Offset,
    #[error("the response is 0 or above the period")]
    Response,
}

impl TryFrom<Record> for LawfulRecord {
    ghost use Rattle.platform.specs.LawfulRecords.{Checks};

    type Error = RecordFault;

    ghost try_from_gives = { Checks };

    fn try_from(value: Record) -> Result<LawfulRecord, RecordFault> {
        if !value.has_period_in_range() {
            return Err(RecordFault::Period);
        }
        if !value.has_offset_in_range() {
            return Err(RecordFault::Offset);
        }
        if !value.has_response_in_range() {
            return Err(RecordFault::Response);
        }
        Ok(LawfulRecord { record: value })
    }
}

impl LawfulRecord {
    // Cycle, count and rank of the record's stage.
    pub fn describe(self) -> (u32, u8, u8)
        ensures { Some result ≡ described (Some (record_stage self.record)) }
    {
        (self.record.period, 1, self.record.rank)
    }

    // Start and stop of mark `a` of the record's stage; nothing where there is none.
    pub fn mark(self, a: u8) -> Option<(u32, u32)>
        ensures { result ≡ marked (Some (record_stage self.record)) a }
    {
        let Record {
            offset,
            response,
            ..
        } = self.record;
        (a == 0).then(|| (offset, offset + response))
    }
}
