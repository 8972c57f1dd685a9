// Plays a script of calls on a latency book and prints what each call did.
#![tactic(auto)]

mod play;
mod script;
mod sheet;

use crate::play::Opening;
use book::Book;
use platform::{Metronome, Phase, Thin};
use std::io::Read;

fn run(rt: &HostRuntime) -> anyhow::Result<()> {
    let mut bytes = Vec::new(rt.alloc());
    rt.stdin().read_to_end(&mut bytes)?;
    let text = script::as_text(rt.alloc(), bytes.as_slice())?;
    let script = text.as_str();
    let Opening {
        records,
        layers,
        lines,
        call,
    } = play::read_opening(rt, rt.alloc(), script)?;
    let thin = Thin::new(
        Metronome::new(records.as_slice()),
        layers.every,
        layers.from,
    );
    let mut book = Book::new(Phase::new(thin, layers.shift));
    if let Some(call) = call {
        play::play_line(rt, &mut book, lines, &call)?;
    }
    play::play(rt, rt.alloc(), &mut book, lines, script)?;
    Ok(())
}

fn main(rt: HostRuntime) -> anyhow::Result<()> {
    run(&rt)
}
