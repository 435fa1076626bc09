// The laws of runs, each the contract of a function that does nothing.
ghost use Rattle.std.specs.Prelude.{ℕ, Bool, List};
ghost use Rattle.task_graph.specs.NetRows.{NetRows};
ghost use Rattle.journal_rules.specs.OnceNets.{IsOnceNet};
ghost use Rattle.run_laws.specs.OneThreadValue.{OneAnswer};
ghost use Rattle.run_laws.specs.Rings.{IsRinged};
ghost use Rattle.run_laws.specs.Laws.{HasNoOtherValues, HasOneThreadValues, IsDecided, IsGraphRun, KeepsSteady, PipesGoRound, RingsGoRound, ValuesGrow};
ghost use Rattle.pipe_lines.specs.PipeNet.{pipe_net};

use run_frame::{FrameRun, Job};

/// In a legal, steady run of a net without weak edges, whose job allows one answer, the k-th value of each task is
/// the k-th of its one-thread values.
pub fn values_of_steady_runs<J: Job>(run: &FrameRun<J>)
    ensures { HasOneThreadValues J.meaning run.now }
{}

/// Where such a run is complete and fine, its tasks have no other one-thread values.
pub fn all_values_of_steady_runs<J: Job>(run: &FrameRun<J>)
    ensures { HasNoOtherValues J.meaning run.now }
{}

/// More steps along the edges only make the one-thread values longer.
pub fn values_grow<J: Job>()
    ensures { ValuesGrow J.V }
{}

/// A legal and complete run of a graph without conditions, whose tasks put just what they take and whose job allows one
/// answer, is fine exactly where none of its one-thread values is a fault and no more tasks start than its limit. Then
/// its values are those of one thread.
pub fn graph_runs_are_decided<J: Job>(run: &FrameRun<J>)
    ensures { (one : OneAnswer J.V) → IsGraphRun J.meaning run.now one
        → IsDecided J.meaning run.now one }
{}

/// Journals of nets without weak edges and first tokens are steady.
pub fn once_nets_are_steady()
    ensures { (net : NetRows) → IsOnceNet net → KeepsSteady net }
{}

/// Journals of nets whose edges lie on rings, each with one token at most, are steady.
pub fn nets_of_rings_are_steady()
    ensures { (net : NetRows) → IsRinged net → KeepsSteady net }
{}

/// Journals of nets of lines and pipes are steady.
pub fn pipe_nets_are_steady()
    ensures { (lines : ℕ) (serials : List Bool) → KeepsSteady (pipe_net lines serials) }
{}

/// In a net of rings the tasks of each ring are started, or dropped, in turn.
pub fn rings_go_round()
    ensures { (net : NetRows) → RingsGoRound net }
{}

/// In the net of lines and pipes, one of each at least, the tasks of each line are started, or dropped, in turn, and so
/// are those of each serial pipe.
pub fn pipe_nets_go_round()
    ensures { (lines : ℕ) (serials : List Bool) → PipesGoRound lines serials }
{}
