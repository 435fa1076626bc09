// Boxed watchers.
use super::watch::Watch;
use journal_rules::Span;
use outside_io::NoMemory;
use std::boxed::Box;

impl Watch for Box<dyn Watch + Send> {
    ghost told = { λ b. (Watch-box b).told b.value };

    ghost seen = { λ b. (Watch-box b).seen b.value };

    ghost counts_spans = { λ b. (Watch-box b).counts_spans b.value };

    fn span(&mut self, span: Span) -> Result<(), NoMemory> {
        (**self).span(span)
    }

    fn count(&self) -> u64 {
        (**self).count()
    }

    fn get(&self, i: u64) -> Option<Span> {
        (**self).get(i)
    }
}
