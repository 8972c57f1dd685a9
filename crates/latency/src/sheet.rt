// What a book tells, as it is printed.
use book::{Answer, Book, Entry, Open};
use path::{MAX_LENGTH, Semantics};
use platform::Platform;
use stage::MAX_MACRO_PERIOD;
use std::fmt;

// How many marks of a stage are printed.
const SHOWN_MARKS: u8 = 4;

// The stage at a position of the route, with its first marks.
#[derive(Drop)]
struct StageSheet<'a, P> {
    book: &'a Book<P, Open>,
    position: usize,
}

// A book lends no list of its stages or marks: it is asked by position and number.
impl<P: Platform> fmt::Display for StageSheet<'_, P> {
    fn fmt<W: fmt::Write>(&self, f: &mut fmt::Formatter<W>) -> fmt::Result {
        // no `?`: an absent stage prints nothing, and that is no fault
        let Some((cycle, count, rank)) = self.book.describe(self.position) else {
            return Ok(());
        };
        write!(f, "cycle {cycle} count {count} rank {rank} marks")?;
        for a in 0..SHOWN_MARKS {
            if let Some((start, stop)) = self.book.mark(self.position, a) {
                write!(f, " {start}-{stop}")?;
            }
        }
        if count > SHOWN_MARKS {
            f.write_str(" ..")?;
        }
        Ok(())
    }
}

// The stages of the route, a line each, and the macro-period.
#[derive(Drop)]
pub struct RouteSheet<'a, P> {
    pub book: &'a Book<P, Open>,
}

impl<P: Platform> fmt::Display for RouteSheet<'_, P> {
    fn fmt<W: fmt::Write>(&self, f: &mut fmt::Formatter<W>) -> fmt::Result {
        let book = self.book;
        let stages = book.route_len();
        for position in 0..stages {
            if let Some(entry) = book.entry_at(position) {
                let stage = StageSheet { book, position };
                writeln!(f, "  {}: {stage}", Entry::from(entry))?;
            }
        }
        match book.macro_period() {
            Some(period) => write!(f, "stages {stages} macro {period}"),
            None => write!(f, "stages {stages} macro above {MAX_MACRO_PERIOD}"),
        }
    }
}

// A figure: semantics, milliseconds cut to tenths, witness and predecessor. The witness is in front of the buffer that
// the query filled.
#[derive(Clone, Copy)]
pub struct FigureSheet {
    pub semantics: Semantics,
    pub answer: Answer,
    pub witness: [u64; MAX_LENGTH],
}

impl fmt::Display for FigureSheet {
    fn fmt<W: fmt::Write>(&self, f: &mut fmt::Formatter<W>) -> fmt::Result {
        let Answer {
            delay,
            length,
            predecessor,
        } = self.answer;
        write!(
            f,
            "{} {}.{}",
            self.semantics,
            delay / 1000,
            delay / 100 % 10
        )?;
        for instance in self.witness.iter().take(length) {
            write!(f, " {instance}")?;
        }
        if let Some(predecessor) = predecessor {
            write!(f, " after {predecessor}")?;
        }
        Ok(())
    }
}
