// The laws of pipelines, each the contract of a function that does nothing.
ghost use Rattle.std.specs.Prelude.{ℕ, Bool, List};
ghost use Rattle.run_frame.specs.Legal.{IsKept};
ghost use Rattle.run_frame.specs.NestedRule.{job_of};
ghost use Rattle.text_tasks.specs.JobMeaning.{text_job};
ghost use Rattle.run_laws.specs.TextAnswers.{IsPlanned};
ghost use Rattle.pipe_laws.specs.Laws.{PassAllPipes, LinesStartAlone, LinesTakeTurns, PipesKeepOrder};
ghost use Rattle.pipe_laws.specs.TextPipes.{PipesInOrder};

use run_frame::{FrameRun, Job};
use text_tasks::TextJob;

/// In a legal run of a pipeline the n-th start of each serial pipe meets what the order of tokens has at place n. So
/// the tokens that the pipe starts are the first ones of the order, in the order of the journal; the start that meets
/// the end, or a token that never passes, comes after them.
pub fn pipes_keep_order<J: Job>(run: &FrameRun<J>)
    ensures { PipesKeepOrder J.meaning run.now }
{}

/// At each pipe, also a parallel one, the lines take turns with the tokens of the order.
pub fn lines_take_turns<J: Job>(run: &FrameRun<J>)
    ensures { LinesTakeTurns J.meaning run.now }
{}

/// In such a run that is complete, and in which nothing was cut short, all tokens pass all pipes.
pub fn tokens_pass_all_pipes<J: Job>(run: &FrameRun<J>)
    ensures { PassAllPipes J.meaning run.now }
{}

/// In each journal of a pipeline a line has at most one open start. So no more tokens are under way than there are
/// lines.
pub fn lines_start_alone()
    ensures { (lines : ℕ) (serials : List Bool) → LinesStartAlone lines serials }
{}

/// In each run that is kept of a plan's graph, and in the runs inside it, pipelines keep the order of their tokens.
pub fn text_pipes_keep_order(run: &FrameRun<TextJob>)
    ensures { IsPlanned (job_of run.now) → IsKept text_job run.now → PipesInOrder run.now }
{}
