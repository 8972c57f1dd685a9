// The calls that change a book.
ghost use Rattle.std.specs.Prelude.{◌≡◌, ℕ, [], None, IfOk};
ghost use Rattle.book.specs.Faults.{refused_by, route_fault, task_fault};
ghost use Rattle.book.specs.Books.{Becomes, ledger_of, view_of};
ghost use Rattle.book.specs.Ledgers.{enter_refusal, entered, number_refusal, outside_lengths, refuse, retire_refusal, retired, route_refusal, routed};

use crate::book::{Book, Open};
use crate::fault::{RouteFault, TaskFault};
use crate::table::Table;
use arrayvec::ArrayVec;
use path::MAX_LENGTH;
use platform::{LawfulRecord, MAX_NUMBER, Number, Platform, Record};

fn check_number(number: Number) -> Result<(), TaskFault>
    ensures { refused_by task_fault result ≡ number_refusal number }
{
    if number > MAX_NUMBER {
        Err(TaskFault::Number)
    } else {
        Ok(())
    }
}

// The entries as a route, where there are 1 to 16.
fn route_of(entries: &[Number]) -> Result<ArrayVec<Number, MAX_LENGTH>, RouteFault>
    ensures refused { refused_by route_fault result ≡ refuse 8 (outside_lengths entries.now) }
    ensures entries { IfOk result (λ route. route.items ≡ entries.now) }
{
    if entries.is_empty() {
        return Err(RouteFault::Length);
    }
    ArrayVec::try_from(entries).map_err(|_| RouteFault::Length)
}

impl<P: Platform> Book<P, Open> {
    // An empty book over a platform.
    pub fn new(platform: P) -> Book<P, Open>
        ensures platform { result.platform ≡ platform }
        ensures records { (n : ℕ) → (ledger_of result).records n ≡ None }
        ensures route { (ledger_of result).route ≡ [] }
    {
        Book {
            platform,
            table: Table::empty(),
            route: ArrayVec::new(),
            state: Open,
        }
    }

    // Holds the record under the number; on a held number it replaces that one record.
    pub fn enter(&mut self, number: Number, record: Record) -> Result<(), TaskFault>
        ensures refused { refused_by task_fault result ≡ enter_refusal (ledger_of self.old) number «record» }
        ensures after { Becomes self.old self.new (entered (ledger_of self.old) number «record») }
    {
        check_number(number)?;
        let record = LawfulRecord::try_from(record)?;
        self.table.put(number, record)
    }

    // Holds the number no more.
    pub fn retire(&mut self, number: Number) -> Result<(), TaskFault>
        ensures refused { refused_by task_fault result ≡ retire_refusal (ledger_of self.old) number }
        ensures after { Becomes self.old self.new (retired (ledger_of self.old) number) }
    {
        check_number(number)?;
        if self.table.get(number).is_none() {
            return Err(TaskFault::NotHeld);
        }
        if self.route.contains(&number) {
            return Err(TaskFault::OnRoute);
        }
        self.table.remove(number);
        Ok(())
    }

    // Replaces the route.
    pub fn route(&mut self, entries: &[Number]) -> Result<(), RouteFault>
        ensures refused { refused_by route_fault result ≡ route_refusal (view_of P.Platform self.old) entries.now }
        ensures after { Becomes self.old self.new (routed (view_of P.Platform self.old) entries.now) }
    {
        let route = route_of(entries)?;
        self.check_entries(entries)?;
        self.route = route;
        Ok(())
    }
}
