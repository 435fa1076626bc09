// The law of what pipelines come to, the contract of a function that does nothing.
ghost use Rattle.pipe_values.specs.Laws.{ComesToPipeValue};

use run_frame::FrameRun;
use text_tasks::TextJob;

/// Each kept run of a pipeline, of which no more tokens pass than the text has parts, comes to `pipe_value`: a fine run
/// is gathered to it, and where the run isn't fine, or gathering it faults, there is none.
pub fn pipes_come_to_values(run: &FrameRun<TextJob>)
    ensures { ComesToPipeValue run.now }
{}
