// The watcher that refuses a span.
ghost use Rattle.std.specs.Prelude.{◌≡◌, ◌≢◌, None, OnErr, OnOk};
ghost use Rattle.span_profile.specs.Watch.{fuse, one_more, passed};

use super::watch::Watch;
use journal_rules::Span;
use outside_io::NoMemory;

/// A watcher that counts so many spans, keeps none, and refuses each further one, as a watcher does that finds no
/// memory. It takes no memory itself.
#[derive(Drop)]
pub struct SpanFuse {
    count: u64,
    passes: u64,
}

impl SpanFuse {
    /// A watcher that was told nothing, and counts `passes` spans before it refuses one.
    pub fn new(passes: u64) -> SpanFuse
        ensures told { passed result ≡ 0 }
        ensures passes { fuse result ≡ passes }
    {
        SpanFuse { count: 0, passes }
    }
}

impl Watch for SpanFuse {
    ghost told = { passed };

    ghost seen = { λ _. None };

    ghost counts_spans = { λ _. tt };

    /// Counts a span, or refuses it exactly where `passes` were counted.
    fn span(&mut self, _: Span) -> Result<(), NoMemory>
        ensures taken { OnOk result (passed self.old ≢ fuse self.old) }
        ensures count { OnOk result (passed self.new ≡ one_more (passed self.old)) }
        ensures refused { OnErr result (passed self.old ≡ fuse self.old) }
        ensures unchanged { OnErr result (passed self.new ≡ passed self.old) }
        ensures same { fuse self.new ≡ fuse self.old }
    {
        if self.count == self.passes {
            return Err(NoMemory);
        }
        self.count = self.count.saturating_add(1);
        Ok(())
    }

    fn count(&self) -> u64 {
        self.count
    }

    fn get(&self, _: u64) -> Option<Span> {
        None
    }
}
