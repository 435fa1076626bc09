// The next round of a text job.
use crate::feedback_text::shared_feedback;
use crate::job::TextJob;
use nested_runs::Recurs;
use outside_io::NoMemory;
use run_frame::FrameRun;
use std::alloc::Global;

impl Recurs for TextJob {
    ghost use Rattle.text_tasks.specs.JobMeaning.{IsGraphJob};

    ghost may_recur = { IsGraphJob };

    /// The same graph, started with what the run hands on: the value of the last End of the last task that leads to no
    /// other. Its bytes are shared.
    #[tactic(auto, using(crate::proofs::RoundLemmas::feedback_is_value))]
    fn next(&self, _: Global, run: &FrameRun<TextJob>) -> Result<TextJob, NoMemory> {
        match self {
            TextJob::Graph(job) => Ok(TextJob::Graph(job.again(shared_feedback(run)?)?)),
            TextJob::Parts(_) | TextJob::Pipe(_) => unreachable!(),
        }
    }
}
