// A start whose work is a run inside its own.
ghost use Rattle.std.specs.Prelude.{◌≡◌};
ghost use Rattle.std.specs.Arc.{arc_value};

use join_tables::Running;
use run_frame::Job;
use span_book::SpanBook;
use std::marker::Model;
use std::snapshot::Snapshot;
use std::sync::Arc;

/// A start in place of whose work a run goes on. It is open until that run is over.
#[derive(Drop)]
pub struct OpenStart<J: Job> {
    running: Running<J::V>,
    // The job whose task has started, and the book of the spans of its run.
    job: Snapshot<Arc<J>>,
    book: Snapshot<Option<Arc<SpanBook>>>,
}

impl<J: Job> Model for OpenStart<J> {
    ghost use Rattle.table_runs.specs.OpenStarts.{OpenStartView};

    ghost Value = { OpenStartView J J.V };

    ghost use Rattle.std.specs.Arc.{arc_value};
    ghost use Rattle.table_runs.specs.RunKeys.{book_in};

    ghost view = { λ start. record {
      frame = record {
        table = start.running.table;
        job = arc_value start.job.value;
        book = book_in start.book.value;
      };
      running = start.running;
    } };
}

impl<J: Job + Drop> OpenStart<J> {
    ghost use Rattle.table_runs.specs.RunKeys.{book_in};
    ghost use Rattle.table_runs.specs.inside.StartedWork.{open_start};

    /// Of a start of a task of a job.
    pub(crate) fn new(
        running: Running<J::V>,
        job: &Arc<J>,
        book: &Option<Arc<SpanBook>>,
    ) -> OpenStart<J>
        ensures { result ≡ open_start (arc_value job.now) (book_in book.now) running }
    {
        OpenStart {
            running,
            job: Snapshot::of(job),
            book: Snapshot::of(book),
        }
    }

    /// The start.
    pub(crate) fn into_running(self) -> Running<J::V>
        ensures { result ≡ self.running }
    {
        let OpenStart { running, .. } = self;
        running
    }
}
