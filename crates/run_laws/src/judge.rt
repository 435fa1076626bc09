// What the judge says of runs, the contract of a function that does nothing.
ghost use Rattle.run_laws.specs.JudgeLaw.{JudgesKept};

use run_frame::{FrameRun, Job};

/// The judge finds the journal of a kept run complete, by the net and the limit of its job.
pub fn judged_complete<J: Job>(run: &FrameRun<J>)
    ensures { JudgesKept J.meaning run.now }
{}
