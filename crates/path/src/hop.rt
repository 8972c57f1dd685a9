// One hop of a route: from a writer's instances to those of the stage that reads it, ahead and back.
// Times stay below 2^40 microseconds here, so that they fit.
ghost use Rattle.std.specs.Prelude.{◌≡◌, ◌+◌, ◌^◌, ◌<◌, ◌↔◌, IsTrue};
ghost use Rattle.stage.specs.Stages.{start_of};
ghost use Rattle.path.specs.Forward.{Waits};
ghost use Rattle.stage.specs.LawfulRow.{stage_in};
ghost use Rattle.path.specs.Steps.{ahead_of, back_of};

use stage::LawfulRow;

#[derive(Clone, Copy)]
pub(crate) struct Hop<'a> {
    pub(crate) writer: &'a LawfulRow,
    pub(crate) reader: &'a LawfulRow,
}

impl Hop<'_> {
    // Whether the reader waits for a writer that is running as it starts: the writer is more urgent.
    fn waits(&self) -> bool
        ensures { IsTrue result ↔ Waits (stage_in self.now.writer.now) (stage_in self.now.reader.now) }
    {
        self.reader.row().rank < self.writer.row().rank
    }

    // The first instance of the reader for which what instance `i` of the writer writes is there.
    pub(crate) fn ahead(&self, i: u64) -> u64
        requires { start_of (stage_in self.now.writer.now) i < 2 ^ 40 }
        ensures { result ≡ ahead_of (stage_in self.now.writer.now) (stage_in self.now.reader.now) i }
    {
        let ready = if self.waits() {
            self.writer.start(i).unwrap()
        } else {
            self.writer.stop(i).unwrap()
        };
        self.reader.next(ready)
    }

    // The instance of the writer that instance `j` of the reader reads from; there is one.
    pub(crate) fn back(&self, j: u64) -> u64
        requires early { start_of (stage_in self.now.reader.now) j < 2 ^ 40 }
        requires there { 0 < back_of (stage_in self.now.writer.now) (stage_in self.now.reader.now) (j + 1) }
        ensures { result + 1 ≡ back_of (stage_in self.now.writer.now) (stage_in self.now.reader.now) (j + 1) }
    {
        let time = self.reader.start(j).unwrap();
        let started = self.writer.next(time + 1) - 1;
        if self.waits() {
            return started;
        }
        // one that is still running has not written yet
        if self.writer.stop(started).unwrap() <= time {
            started
        } else {
            started - 1
        }
    }
}
