// The watcher that keeps what it is told.
ghost use Rattle.std.specs.Prelude.{◌≡◌, []};
ghost use Rattle.span_profile.specs.Watch.{listed};

use super::watch::Watch;
use journal_rules::Span;
use outside_io::NoMemory;
use std::alloc::Global;

/// A watcher that keeps the spans, in the order in which it was told them.
#[derive(Drop)]
pub struct SpanList {
    spans: Vec<Span>,
}

impl SpanList {
    /// A watcher that was told nothing. It takes no memory.
    pub fn new(alloc: Global) -> SpanList
        ensures { listed result ≡ [] }
    {
        SpanList {
            spans: Vec::new(alloc),
        }
    }
}

impl Watch for SpanList {
    ghost use Rattle.std.specs.Prelude.{◌-◌, ◌^◌, Some, length, min, refl};
    ghost use Rattle.span_profile.specs.Watch.{listed};

    ghost told = { λ watcher. min (length (listed watcher)) (2 ^ 64 - 1) };

    ghost seen = { λ watcher. Some (listed watcher) };

    ghost counts_spans = { λ watcher. refl };

    /// Keeps a span.
    fn span(&mut self, span: Span) -> Result<(), NoMemory> {
        self.spans.push(span)?;
        Ok(())
    }

    fn count(&self) -> u64 {
        self.spans.len() as u64
    }

    fn get(&self, i: u64) -> Option<Span> {
        self.spans.get(i as usize).copied()
    }
}
