// The watcher that only counts.
ghost use Rattle.std.specs.Prelude.{◌≡◌, None, IsOk};
ghost use Rattle.span_profile.specs.Watch.{one_more, counted};

use super::watch::Watch;
use journal_rules::Span;
use outside_io::NoMemory;

/// A watcher that counts the spans and keeps none. It takes no memory.
#[derive(Drop)]
pub struct SpanCount {
    count: u64,
}

impl SpanCount {
    /// A watcher that was told nothing.
    pub fn new() -> SpanCount
        ensures { counted result ≡ 0 }
    {
        SpanCount { count: 0 }
    }
}

impl Watch for SpanCount {
    ghost told = { counted };

    ghost seen = { λ _. None };

    ghost counts_spans = { λ _. tt };

    /// Counts a span. It takes no memory, so it never fails.
    fn span(&mut self, _: Span) -> Result<(), NoMemory>
        ensures ok { IsOk result }
        ensures count { counted self.new ≡ one_more (counted self.old) }
    {
        self.count = self.count.saturating_add(1);
        Ok(())
    }

    fn count(&self) -> u64 {
        self.count
    }

    fn get(&self, _: u64) -> Option<Span> {
        None
    }
}
