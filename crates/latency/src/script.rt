// Scripts: one call to a line, and `#` begins a comment.
use path::Semantics;
use platform::{Number, Record};
use std::alloc::{AllocError, AllocFailed, Global};
use std::str::{FromStr, SplitWhitespace};
use thiserror::Error;

// What a line asks for.
#[derive(Drop)]
pub enum Line {
    // the record of the platform's next stage
    Stage(Record),
    // the shift of the phase that stands on the platform
    Phase(u32),
    // the thin that stands on the stages, under the phase: one instance of so many, counted from this one
    Thin { every: u32, from: u32 },
    Enter(Number, Record),
    Retire(Number),
    Route(Vec<Number>),
    // a semantics by its number, which the query judges
    Query(u8),
}

// A line that cannot be read, by what was expected in its place.
#[derive(Clone, Copy, Debug, Error)]
#[error("not read, expected {0}")]
pub struct Unread(pub &'static str);

// What stands in a line of the script: nothing where it is empty or only a comment.
pub type Reading = Result<Option<Line>, Unread>;

// Why a line is not taken in.
#[derive(Drop)]
enum ReadError {
    Unread(Unread),
    Memory(AllocError),
}

// Written out: a derive would want texts, and nobody prints a `ReadError`.
impl From<Unread> for ReadError {
    fn from(unread: Unread) -> ReadError {
        ReadError::Unread(unread)
    }
}

impl<T: Drop> From<AllocFailed<T>> for ReadError {
    fn from(failed: AllocFailed<T>) -> ReadError {
        ReadError::Memory(failed.into())
    }
}

// What a line looks like that begins with this word. `read_line` lists the words once more: each reads words of its own,
// and a table of closures would hold the same eight lines.
fn expected(verb: &str) -> &'static str {
    match verb {
        "stage" => "stage PERIOD OFFSET RESPONSE RANK",
        "phase" => "phase SHIFT",
        "thin" => "thin EVERY FROM",
        "enter" => "enter NUMBER PERIOD OFFSET RESPONSE RANK",
        "retire" => "retire NUMBER",
        "route" => "route ENTRY ENTRY ..",
        "query" => "query LL, LF, FL or FF, or its number",
        _ => "stage, phase, thin, enter, retire, route or query",
    }
}

// The words of a line after its first.
#[derive(Drop)]
struct Words<'a> {
    rest: SplitWhitespace<'a>,
    expected: &'static str,
}

impl Words<'_> {
    fn unread(&self) -> Unread {
        Unread(self.expected)
    }

    // The next word, as a number that fits `T`.
    fn number<T: FromStr>(&mut self) -> Result<T, Unread>
    where
        T::Err: Drop,
    {
        let word = self.rest.next().ok_or(self.unread())?;
        word.parse().map_err(|_| self.unread())
    }

    fn record(&mut self) -> Result<Record, Unread> {
        Ok(Record {
            period: self.number()?,
            offset: self.number()?,
            response: self.number()?,
            rank: self.number()?,
        })
    }

    // The number of a semantics, given by its name or as a number.
    fn semantics(&mut self) -> Result<u8, Unread> {
        let word = self.rest.next().ok_or(self.unread())?;
        word.parse::<Semantics>()
            .map(u8::from)
            .or_else(|_| word.parse())
            .map_err(|_| self.unread())
    }

    // All words that are left, as route entries.
    fn entries(&mut self, heap: Global) -> Result<Vec<Number>, ReadError> {
        let unread = self.unread();
        let mut entries = Vec::new(heap);
        for word in &mut self.rest {
            entries.push(word.parse().map_err(|_| unread)?)?;
        }
        Ok(entries)
    }

    fn end(&mut self) -> Result<(), Unread> {
        if self.rest.next().is_some() {
            return Err(self.unread());
        }
        Ok(())
    }
}

// One line of the script.
fn read_line(heap: Global, text: &str) -> Result<Option<Line>, ReadError> {
    let text = text.split_once('#').map_or(text, |(before, _)| before);
    let mut rest = text.split_whitespace();
    // no `?`: an empty line is no fault
    let Some(verb) = rest.next() else {
        return Ok(None);
    };
    let expected = expected(verb);
    let mut words = Words { rest, expected };
    let line = match verb {
        "stage" => Line::Stage(words.record()?),
        "phase" => Line::Phase(words.number()?),
        "thin" => Line::Thin {
            every: words.number()?,
            from: words.number()?,
        },
        "enter" => Line::Enter(words.number()?, words.record()?),
        "retire" => Line::Retire(words.number()?),
        "route" => Line::Route(words.entries(heap)?),
        "query" => Line::Query(words.semantics()?),
        _ => return Err(Unread(expected).into()),
    };
    words.end()?;
    Ok(Some(line))
}

// The bytes as text, a character each, so that no byte makes a script unreadable as a whole. A loop, since a push can
// fail.
pub fn as_text(heap: Global, bytes: &[u8]) -> Result<String, AllocError> {
    let mut text = String::new(heap);
    for byte in bytes {
        text.push(char::from(*byte))?;
    }
    Ok(text)
}

// What stands in a line. One that cannot be read is no reason to stop: only a lack of memory ends the reading.
pub fn reading(heap: Global, text: &str) -> Result<Reading, AllocError> {
    match read_line(heap, text) {
        Ok(line) => Ok(Ok(line)),
        Err(ReadError::Unread(unread)) => Ok(Err(unread)),
        Err(ReadError::Memory(error)) => Err(error),
    }
}

// The layers that stand on the platform's stages: the last line of each kind counts.
#[derive(Clone, Copy)]
pub struct Layers {
    pub shift: u32,
    pub every: u32,
    pub from: u32,
}

// Without a line, the phase shifts by nothing and the thin takes every instance.
impl Default for Layers {
    fn default() -> Layers {
        Layers {
            shift: 0,
            every: 1,
            from: 0,
        }
    }
}
