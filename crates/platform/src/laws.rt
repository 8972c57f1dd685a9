// What holds of the layers, whichever code answers.
ghost use Rattle.platform.specs.LayerSamples.{SamplesHold};

// The worked cases of a phase and a thin come out as they are said to.
#[tactic(auto, unfolding(stage::specs::Stages::start_of, stage::specs::Stages::stop_of, crate::specs::Phases::before, crate::specs::Phases::phase_stage, crate::specs::Thins::thin_stage))]
pub fn layer_examples_hold()
    ensures { SamplesHold }
{}
