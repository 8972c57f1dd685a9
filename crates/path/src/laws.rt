// What holds of every figure, whichever code answers it. These do nothing when they run.
ghost use Rattle.path.specs.Laws.{OnlyFigure, SamplesHold, SomeFigure};

// The worked cases have the figures that they are said to have.
pub fn examples_hold()
    ensures { SamplesHold }
{}

// Lawful stages have exactly one figure under each semantics.
pub fn one_figure()
    ensures some { SomeFigure }
    ensures only { OnlyFigure }
{}
