// The texts that a file mentions.
ghost use Rattle.std.specs.Prelude.{◌≡◌, ◌∷◌, map, IfOk, OnOk};
ghost use Rattle.graph_file.specs.PlanText.{file_texts, mentioned, mentioned_by_graphs, mentioned_by_tasks};
ghost use Rattle.graph_file.specs.inside.Lookups.{IsIndex};
ghost use Rattle.graph_drafts.specs.inside.Reading.{draft_rows, file_op_row, file_rows, strings, task_text};

use crate::lookups::{Index, index_of, mention};
use graph_drafts::{Draft, FileDraft, FileOp, FileTask};
use outside_io::{List, NoMemory};
use std::alloc::Global;

/// The texts that the tasks of a file read, each once, in the order in which they are first mentioned.
pub(crate) fn texts_of<'v>(alloc: Global, file: &FileDraft<'v>) -> Result<Index<'v>, NoMemory>
    ensures index { IfOk result IsIndex }
    ensures texts { IfOk result (λ texts. strings texts.names ≡ file_texts (file_rows file.now)) }
{
    let mut texts = index_of(alloc, List::new(alloc))?;
    mention_tasks(file.top.tasks.as_slice(), &mut texts)?;
    mention_graphs(file.modules.as_slice(), &mut texts)?;
    Ok(texts)
}

fn mention_graphs<'v>(drafts: &[Draft<'v>], texts: &mut Index<'v>) -> Result<(), NoMemory>
    requires { IsIndex texts.old }
    ensures index { OnOk result (IsIndex texts.new) }
    ensures texts { OnOk result (strings texts.new.names
        ≡ mentioned_by_graphs (strings texts.old.names) (map draft_rows drafts.now)) }
{
    for draft in drafts {
        mention_tasks(draft.tasks.as_slice(), texts)?;
    }
    Ok(())
}

fn mention_tasks<'v>(tasks: &[FileTask<'v>], texts: &mut Index<'v>) -> Result<(), NoMemory>
    requires { IsIndex texts.old }
    ensures index { OnOk result (IsIndex texts.new) }
    ensures texts { OnOk result (strings texts.new.names
        ≡ mentioned_by_tasks (strings texts.old.names) (map task_text tasks.now)) }
{
    for task in tasks {
        mention_op(&task.op, texts)?;
    }
    Ok(())
}

fn mention_op<'v>(op: &FileOp<'v>, texts: &mut Index<'v>) -> Result<(), NoMemory>
    requires { IsIndex texts.old }
    ensures index { OnOk result (IsIndex texts.new) }
    ensures texts { OnOk result (strings texts.new.names
        ≡ mentioned (strings texts.old.names) (file_op_row op.now)) }
{
    match op {
        FileOp::Reads(text) => mention(texts, text),
        FileOp::Runs(_) | FileOp::Does(_) => Ok(()),
    }
}
