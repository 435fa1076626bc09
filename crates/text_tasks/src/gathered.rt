// What a run comes to as the work of the task in whose place it was run.
ghost use Rattle.std.specs.Prelude.{◌≡◌, ◌<◌, ◌++◌, ℕ, [], IfOk, OnOk, length};
ghost use Rattle.std.specs.List.{flat_map};
ghost use Rattle.std.specs.Option.{option_copied, option_map_or};
ghost use Rattle.run_frame.specs.LastEnds.{last_value};
ghost use Rattle.run_frame.specs.NestedRule.{journal_of};
ghost use Rattle.run_frame.specs.Runs.{values_of};
ghost use Rattle.run_frame.specs.declared.run.FrameRun.{FrameRun};
ghost use Rattle.text_ops.specs.Values.{Makes};
ghost use Rattle.text_tasks.specs.Items.{item_text};
ghost use Rattle.text_tasks.specs.Sinks.{sink_text, sink_texts, task_values};
ghost use Rattle.text_tasks.specs.declared.item.Item.{Item};
ghost use Rattle.text_tasks.specs.declared.job.TextJob.{TextJob};
ghost use Rattle.text_tasks.specs.inside.Gathering.{AreLastValues, all_of};

use crate::item::Item;
use crate::job::TextJob;
use outside_io::{List, NoMemory};
use run_frame::{FrameRun, last_ends, values_by_place};
use std::alloc::Global;
use std::sync::Arc;
use task_graph::Net;
use text_ops::{ApplyError, Joined, Text, pass};

// What the tasks of a run ended with that lead to no other, one behind the other. Where that is one text its bytes are
// shared.
pub(crate) fn gathered_text(
    alloc: Global,
    net: &Net,
    run: &FrameRun<TextJob>,
) -> Result<Text, ApplyError>
    ensures { Makes (sink_texts net.now 0 (task_values net.now run.now)) result }
{
    joined(alloc, texts_of_sinks(alloc, net, run)?.as_slice())
}

// These texts, one behind the other. Where there is just one its bytes are shared.
pub(crate) fn joined(alloc: Global, texts: &[Text]) -> Result<Text, ApplyError>
    ensures { Makes (all_of texts.now) result }
{
    if let [text] = texts {
        return pass(text);
    }
    let mut made = Joined::new(alloc);
    for text in texts {
        made.add(pass(text))?;
    }
    made.finish(alloc)
}

// What the tasks ended with that lead to no other and ended with a text that isn't empty, in the order of their
// numbers.
fn texts_of_sinks(alloc: Global, net: &Net, run: &FrameRun<TextJob>) -> Result<List<Text>, NoMemory>
    ensures { IfOk result
        (λ texts. all_of texts ≡ sink_texts net.now 0 (task_values net.now run.now)) }
{
    let tasks = net.tasks().len();
    let values = LastValues::of(alloc, run, tasks)?;
    let mut texts = List::new(alloc);
    for task in 0..tasks as u32 {
        add_sink(&mut texts, net, &values, task)?;
    }
    Ok(texts)
}

// Adds what a task ended with, where it leads to no other and that isn't empty.
fn add_sink(
    texts: &mut List<Text>,
    net: &Net,
    values: &LastValues,
    task: u32,
) -> Result<(), NoMemory>
    requires { task < length net.now.tasks }
    ensures { (run : FrameRun TextJob Item) → AreLastValues run (length net.now.tasks) values.now
        → OnOk result (all_of texts.new
        ≡ all_of texts.old ++ sink_text net.now task (last_value (journal_of run) (values_of run) task)) }
{
    if net.out_edges(task).is_empty() {
        add_value(texts, values.get(task as usize))
    } else {
        Ok(())
    }
}

// Adds the text of a value, if there is one and its text isn't empty.
pub(crate) fn add_value(texts: &mut List<Text>, value: Option<&Item>) -> Result<(), NoMemory>
    ensures { OnOk result (all_of texts.new
        ≡ all_of texts.old ++ option_map_or item_text (option_copied value.entry) []) }
{
    match value {
        Some(item) => add_text(texts, item.text()),
        None => Ok(()),
    }
}

// Adds a text, unless it is empty.
#[tactic(auto, using(crate::proofs::GatherLemmas::all_of_put))]
fn add_text(texts: &mut List<Text>, text: &Text) -> Result<(), NoMemory>
    ensures { OnOk result (all_of texts.new ≡ all_of texts.old ++ text.now) }
{
    if text.as_slice().is_empty() {
        return Ok(());
    }
    texts.push(text.share()?)?;
    Ok(())
}

// What a run ended with, by the numbers of tasks or by the places of tokens: where the last End of each is, and the
// value of the End at each place of the journal.
#[derive(Drop)]
pub(crate) struct LastValues {
    pub(crate) ends: Vec<Option<u64>>,
    pub(crate) values: Vec<Option<Arc<Item>>>,
}

impl LastValues {
    ghost use Rattle.text_tasks.specs.inside.Gathering.{last_held};

    // What so many tasks ended with, by their numbers. It walks over the journal once and over the values once.
    fn of(alloc: Global, run: &FrameRun<TextJob>, tasks: usize) -> Result<LastValues, NoMemory>
        ensures { IfOk result (AreLastValues run.now tasks) }
    {
        let ends = last_ends(alloc, &run.journal, tasks)?;
        let values = values_by_place(alloc, run.values.as_slice(), run.journal.len())?;
        Ok(LastValues { ends, values })
    }

    // The value of a number's last End.
    pub(crate) fn get(&self, number: usize) -> Option<&Item>
        ensures { option_copied result ≡ last_held self.now number }
    {
        let place = (*self.ends.get(number)?)?;
        match self.values.get(place as usize)? {
            Some(value) => Some(value),
            None => None,
        }
    }
}
