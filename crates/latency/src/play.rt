// Plays a script's lines on a book, and prints what each did.
use crate::script::{Layers, Line, Unread, reading};
use crate::sheet::{FigureSheet, RouteSheet};
use book::{AnalysisFault, Book, Fault, Open};
use path::{MAX_LENGTH, Semantics};
use platform::{MAX_EVERY, MAX_NUMBER, Number, Platform, Record};
use std::alloc::Global;
use std::io;

// What a call that is not refused did.
#[derive(Drop)]
enum Outcome {
    Entered(Number),
    Retired(Number),
    Routed,
    Answered(FigureSheet),
}

// A platform's stage, by its record. What makes it absent is asked here once more, for what is printed.
fn show_record(rt: &impl Print, stage: usize, record: Record) -> io::Result<()> {
    if stage > MAX_NUMBER as usize {
        return println!(rt; "stage {stage}: absent, stages end at {MAX_NUMBER}");
    }
    if !record.is_in_range() {
        return println!(rt; "stage {stage}: absent, its record is outside the limits");
    }
    println!(rt; "stage {stage}: {record}")
}

fn show_unread(rt: &impl Print, at: usize, unread: Unread) -> io::Result<()> {
    println!(rt; "line {at}: {unread}")
}

// Plays a call; nothing where the line is about the platform.
fn call<P: Platform>(
    book: &mut Book<P, Open>,
    line: &Line,
) -> Result<Option<Outcome>, AnalysisFault> {
    match line {
        Line::Stage(_) | Line::Phase(_) | Line::Thin { .. } => Ok(None),
        Line::Enter(number, record) => {
            book.enter(*number, *record)?;
            Ok(Some(Outcome::Entered(*number)))
        }
        Line::Retire(number) => {
            book.retire(*number)?;
            Ok(Some(Outcome::Retired(*number)))
        }
        Line::Route(entries) => {
            book.route(entries.as_slice())?;
            Ok(Some(Outcome::Routed))
        }
        Line::Query(number) => {
            let mut witness = [0; MAX_LENGTH];
            let answer = book.query(*number, &mut witness)?;
            // the query has judged the number
            let semantics = Semantics::try_from(*number)?;
            Ok(Some(Outcome::Answered(FigureSheet {
                semantics,
                answer,
                witness,
            })))
        }
    }
}

pub fn play_line<P: Platform>(
    rt: &impl Print,
    book: &mut Book<P, Open>,
    at: usize,
    line: &Line,
) -> io::Result<()> {
    match call(book, line) {
        Ok(Some(Outcome::Entered(number))) => println!(rt; "entered {number}"),
        Ok(Some(Outcome::Retired(number))) => println!(rt; "retired {number}"),
        Ok(Some(Outcome::Routed)) => println!(rt; "{}", RouteSheet { book }),
        Ok(Some(Outcome::Answered(figure))) => println!(rt; "{figure}"),
        Ok(None) => show_unread(rt, at, Unread("the platform only before the first call")),
        Err(fault) => {
            let number = fault.number();
            let place = fault.place();
            println!(rt; "line {at}: refused {number} place {place}: {fault}")
        }
    }
}

// A layer that keeps some instances. A thin's limits are asked here only for what is printed.
fn show_thin(rt: &impl Print, every: u32, from: u32) -> io::Result<()> {
    if every < 1 || every > MAX_EVERY || from >= every {
        return println!(rt; "thin {every} {from}: no stages");
    }
    println!(rt; "thin {every} {from}")
}

// What the lines up to the first call say: of the platform, how many lines these are, and the call.
#[derive(Drop)]
pub struct Opening {
    pub records: Vec<Record>,
    pub layers: Layers,
    pub lines: usize,
    pub call: Option<Line>,
}

// Reads the lines up to the first call, and prints those about the platform. None is kept, since a script may be long.
pub fn read_opening(rt: &impl Print, heap: Global, script: &str) -> anyhow::Result<Opening> {
    let mut opening = Opening {
        records: Vec::new(heap),
        layers: Layers::default(),
        lines: 0,
        call: None,
    };
    for (at, text) in (1..).zip(script.lines()) {
        opening.lines = at;
        match reading(heap, text)? {
            Ok(Some(Line::Stage(record))) => {
                show_record(rt, opening.records.len(), record)?;
                opening.records.push(record)?;
            }
            Ok(Some(Line::Phase(shift))) => {
                println!(rt; "phase {shift}")?;
                opening.layers.shift = shift;
            }
            Ok(Some(Line::Thin { every, from })) => {
                show_thin(rt, every, from)?;
                opening.layers.every = every;
                opening.layers.from = from;
            }
            Ok(Some(call)) => {
                opening.call = Some(call);
                break;
            }
            Ok(None) => {}
            Err(unread) => show_unread(rt, at, unread)?,
        }
    }
    Ok(opening)
}

// Plays the lines that come after the first `passed`, in order; a refused or unread line changes nothing, and the rest
// goes on.
pub fn play<P: Platform>(
    rt: &impl Print,
    heap: Global,
    book: &mut Book<P, Open>,
    passed: usize,
    script: &str,
) -> anyhow::Result<()> {
    for (at, text) in (1..).zip(script.lines()).skip(passed) {
        match reading(heap, text)? {
            Ok(Some(line)) => play_line(rt, book, at, &line)?,
            Ok(None) => {}
            Err(unread) => show_unread(rt, at, unread)?,
        }
    }
    Ok(())
}
