// A route, and steps along all of it: ahead from its first stage to its last, and back.
// Times stay below 2^36 microseconds at the first stage and 2^40 at the last, so that they fit.
ghost use Rattle.std.specs.Prelude.{◌≡◌, ℕ, ◌+◌, ◌^◌, ◌<◌, ◌≤◌, length, take, drop, Some, MatchResult, slice_index};
ghost use Rattle.stage.specs.Periods.{IsMacroPeriod};
ghost use Rattle.stage.specs.Stages.{start_of};
ghost use Rattle.path.specs.declared.delay.TheConstants.{MAX_LENGTH};
ghost use Rattle.stage.specs.LawfulRow.{stage_in};
ghost use Rattle.path.specs.Given.{stages_of};
ghost use Rattle.path.specs.Periods.{instances_in};
ghost use Rattle.path.specs.Refusals.{Refused, cycles_of};
ghost use Rattle.path.specs.Steps.{witness_to};

use crate::delay::{MAX_LENGTH, SearchFault};
use crate::hop::Hop;
use arrayvec::ArrayVec;
use stage::LawfulRow;

// Stages one after the other, of which each reads the one before it.
#[derive(Clone, Copy)]
pub(crate) struct Route<'a> {
    rows: &'a [LawfulRow],
    ghost some: { 0 < length rows.now },
    ghost few: { length rows.now ≤ MAX_LENGTH },
}

impl<'a> Route<'a> {
    ghost use Rattle.path.specs.Route.{EndsPath, first_along, last_along, stages_along, steps_along};

    // The route along the rows, where there are 1 to `MAX_LENGTH` of them.
    pub(crate) fn new(rows: &'a [LawfulRow]) -> Result<Route<'a>, SearchFault>
        ensures { MatchResult result (λ route. stages_along route ≡ stages_of rows.now) (λ fault. (room : ℕ) → Refused fault (stages_of rows.now) room) }
    {
        if rows.is_empty() || rows.len() > MAX_LENGTH {
            return Err(SearchFault::Length);
        }
        Ok(Route { rows })
    }

    pub(crate) fn first(&self) -> &'a LawfulRow
        ensures { stage_in result.now ≡ first_along self.now }
    {
        self.rows.first().unwrap()
    }

    pub(crate) fn last(&self) -> &'a LawfulRow
        ensures { stage_in result.now ≡ last_along self.now }
    {
        self.rows.last().unwrap()
    }

    // How many instances of the first stage start in the span.
    pub(crate) fn instances_in(&self, span: u32) -> u64
        ensures count { result ≡ instances_in span (first_along self.now) }
        ensures small { result < 2 ^ 40 }
    {
        let row = self.first().row();
        u64::from(span / row.cycle) * u64::from(row.count)
    }

    // The macro-period of the stages, where they have one. A book's own notes the cycles too, but asks a platform, which may
    // lack a stage; the call that they share is `stage`'s.
    pub(crate) fn macro_period(&self) -> Result<u32, SearchFault>
        ensures { MatchResult result (λ span. IsMacroPeriod (cycles_of (stages_along self.now)) (Some span)) (λ fault. (room : ℕ) → Refused fault (stages_along self.now) room) }
    {
        let mut cycles = ArrayVec::<u32, MAX_LENGTH>::new();
        for row in self.rows {
            cycles.push(row.row().cycle);
        }
        stage::macro_period(cycles.as_slice()).ok_or(SearchFault::MacroPeriod)
    }

    // The first instance of the last stage that instance `i` of the first stage leads to.
    pub(crate) fn ahead(&self, i: u64) -> u64
        requires { start_of (first_along self.now) i < 2 ^ 36 }
        ensures ahead { result ≡ (steps_along self.now).ahead i }
        ensures early { start_of (last_along self.now) result < 2 ^ 40 }
    {
        let mut at = i;
        for [writer, reader] in self.rows.array_windows::<2>() {
            at = Hop { writer, reader }.ahead(at);
        }
        at
    }

    // The first instance of the path that ends at instance `j` of the last stage; there is one.
    pub(crate) fn back(&self, j: u64) -> u64
        requires { EndsPath self.now j }
        ensures { result + 1 ≡ (steps_along self.now).back (j + 1) }
    {
        let mut at = j;
        for [writer, reader] in self.rows.array_windows::<2>().rev() {
            at = Hop { writer, reader }.back(at);
        }
        at
    }

    // Writes the path that ends at instance `j` of the last stage into the front of `path`; there is one.
    pub(crate) fn write_path(&self, j: u64, path: &mut [u64])
        requires room { length (stages_along self.now) ≤ length path.old }
        requires end { EndsPath self.now j }
        ensures written { take (length (stages_along self.now)) path.new ≡ witness_to (stages_along self.now) j }
        ensures rest { drop (length (stages_along self.now)) path.new ≡ drop (length (stages_along self.now)) path.old }
    {
        let mut at = j;
        path[self.rows.len() - 1] = at;
        for (k, [writer, reader]) in self.rows.array_windows::<2>().enumerate().rev() {
            at = Hop { writer, reader }.back(at);
            path[k] = at;
        }
    }
}
