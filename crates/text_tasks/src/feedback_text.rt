// What a run hands to the next round.
ghost use Rattle.std.specs.Prelude.{◌≡◌, IfOk};
ghost use Rattle.std.specs.Option.{option_copied, option_and_then};
ghost use Rattle.run_frame.specs.LastEnds.{last_value};
ghost use Rattle.run_frame.specs.NestedRule.{job_of, journal_of};
ghost use Rattle.run_frame.specs.Runs.{values_of};
ghost use Rattle.text_ops.specs.TextMeaning.{has_word};
ghost use Rattle.text_tasks.specs.JobMeaning.{feedback_of, net_of};
ghost use Rattle.text_tasks.specs.Sinks.{last_sink};

use crate::item::Item;
use crate::job::TextJob;
use outside_io::NoMemory;
use run_frame::{FrameRun, Job};
use task_graph::Net;
use text_ops::{Text, has_word};

/// The value of the last End of the last task, by its number, that has no out-edge; or the empty text, where no task is
/// so or that one has no End. It walks over the tasks, the journal and the values.
pub fn feedback(run: &FrameRun<TextJob>) -> &[u8]
    ensures { result.now ≡ feedback_of run.now }
{
    match last_item(run) {
        Some(item) => item.text().as_slice(),
        None => &[],
    }
}

/// Whether a word occurs in a line of that text.
pub fn feedback_has(run: &FrameRun<TextJob>, word: &[u8]) -> bool
    ensures { result ≡ has_word word.now (feedback_of run.now) }
{
    match last_item(run) {
        Some(item) => has_word(word, item.text()),
        None => has_word(word, &Text::new()),
    }
}

// That text, whose bytes are shared.
pub(crate) fn shared_feedback(run: &FrameRun<TextJob>) -> Result<Text, NoMemory>
    ensures { IfOk result (λ text. text ≡ feedback_of run.now) }
{
    match last_item(run) {
        Some(item) => item.text().share(),
        None => Ok(Text::new()),
    }
}

// The value, if there is one.
fn last_item(run: &FrameRun<TextJob>) -> Option<&Item>
    ensures { option_copied result
        ≡ option_and_then (last_value (journal_of run.now) (values_of run.now))
        (last_sink (net_of (job_of run.now))) }
{
    let task = last_sink(run.job.net())?;
    let place = run.last_end(task)?;
    run.value(place)
}

// The last task without an out-edge.
#[tactic(auto, using(crate::proofs::WorkLemmas::last_sink_next))]
fn last_sink(net: &Net) -> Option<u32>
    ensures { result ≡ last_sink net.now }
{
    let mut last = None;
    for task in 0..net.tasks().len() as u32 {
        if net.out_edges(task).is_empty() {
            last = Some(task);
        }
    }
    last
}
