// What stands along a book's route.
ghost use Rattle.std.specs.Prelude.{◌≡◌, ◌≤◌, length};
ghost use Rattle.std.specs.List.{slice_get};
ghost use Rattle.platform.specs.Platforms.{described, marked};
ghost use Rattle.std.specs.Option.{option_map};
ghost use Rattle.book.specs.Books.{ledger_of, view_of};
ghost use Rattle.book.specs.Faults.{refused_by, route_fault};
ghost use Rattle.book.specs.Ledgers.{RoutePeriod, absent_at, entry_stage, first_absent, stage_at};

use crate::book::Book;
use crate::entry::Entry;
use crate::fault::RouteFault;
use arrayvec::ArrayVec;
use path::MAX_LENGTH;
use platform::{LawfulRecord, Number, Platform};

impl<P: Platform, S> Book<P, S> {
    // Cycle, count and rank of a route entry's stage; nothing where it is neither held nor present.
    pub(crate) fn describe_entry(&self, entry: Number) -> Option<(u32, u8, u8)>
        ensures { result ≡ described (entry_stage (view_of P.Platform self.now) entry) }
    {
        match entry.into() {
            Entry::Task(task) => self.table.get(task).map(LawfulRecord::describe),
            Entry::Stage(stage) => self.platform.describe(stage),
        }
    }

    // Looks at the entries one by one.
    pub(crate) fn check_entries(&self, entries: &[Number]) -> Result<(), RouteFault>
        ensures { refused_by route_fault result ≡ option_map absent_at (first_absent (entry_stage (view_of P.Platform self.now)) entries.now) }
    {
        for (position, entry) in entries.iter().enumerate() {
            self.describe_entry(*entry)
                .ok_or(RouteFault::Absent(position))?;
        }
        Ok(())
    }

    // Start and stop of mark `a` of a route entry's stage; nothing where there is none.
    pub(crate) fn mark_of_entry(&self, entry: Number, a: u8) -> Option<(u32, u32)>
        ensures { result ≡ marked (entry_stage (view_of P.Platform self.now) entry) a }
    {
        match entry.into() {
            Entry::Task(task) => self.table.get(task)?.mark(a),
            Entry::Stage(stage) => self.platform.mark(stage, a),
        }
    }

    // How many entries the route has; 0 where there is no route.
    pub fn route_len(&self) -> usize
        ensures value { result ≡ length (ledger_of self.now).route }
        ensures short { result ≤ 16 }
    {
        self.route.len()
    }

    // The entry at a position of the route; nothing past its end.
    pub fn entry_at(&self, position: usize) -> Option<Number>
        ensures { result ≡ slice_get (ledger_of self.now).route position }
    {
        self.route.get(position).copied()
    }

    // Cycle, count and rank of the stage at a position of the route; nothing past its end.
    pub fn describe(&self, position: usize) -> Option<(u32, u8, u8)>
        ensures { result ≡ described (stage_at (view_of P.Platform self.now) position) }
    {
        let entry = self.entry_at(position)?;
        self.describe_entry(entry)
    }

    // Start and stop of mark `a` of the stage at a position of the route; nothing past their ends.
    pub fn mark(&self, position: usize, a: u8) -> Option<(u32, u32)>
        ensures { result ≡ marked (stage_at (view_of P.Platform self.now) position) a }
    {
        let entry = self.entry_at(position)?;
        self.mark_of_entry(entry, a)
    }

    // The least common multiple of the cycles along the route, where it is not above 100,000,000. It asks for cycles only,
    // and a platform may lack one; the search takes them from rows that are there, which hold each mark too.
    pub fn macro_period(&self) -> Option<u32>
        ensures { RoutePeriod (view_of P.Platform self.now) result }
    {
        if self.route.is_empty() {
            return None;
        }
        let mut cycles = ArrayVec::<u32, MAX_LENGTH>::new();
        for entry in self.route.as_slice() {
            let (cycle, _, _) = self.describe_entry(*entry)?;
            cycles.push(cycle);
        }
        stage::macro_period(cycles.as_slice())
    }
}
