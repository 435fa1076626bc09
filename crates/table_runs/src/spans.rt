// The spans that fates end.
ghost use Rattle.std.specs.Prelude.{◌≡◌};
ghost use Rattle.table_runs.specs.Spans.{ends_span, span_of, spans_in};

use join_tables::Fate;
use journal_rules::Span;

/// How many of these fates end a span.
pub fn count_spans<V>(fates: &[Fate<V>]) -> u64
    ensures { result ≡ spans_in fates.now }
{
    fates.iter().filter(|fate| ends_span(fate)).count() as u64
}

// Whether a start ended or faulted.
fn ends_span<V>(fate: &Fate<V>) -> bool
    ensures { result ≡ ends_span fate.now }
{
    match fate {
        Fate::Ended(_) | Fate::Faulted(_) => true,
        Fate::Dropped(_) | Fate::AllDropped(_) => false,
    }
}

/// The span that a fate ends, if it ends one, in a run that is inside so many.
pub fn span_of<V>(fate: &Fate<V>, depth: u32) -> Option<Span>
    ensures { result ≡ span_of depth fate.now }
{
    match fate {
        Fate::Ended(ended) => Some(Span {
            depth,
            task: ended.task,
            start: ended.start,
            end: ended.place,
        }),
        Fate::Faulted(failure) => Some(Span {
            depth,
            task: failure.task,
            start: failure.start,
            end: failure.place,
        }),
        Fate::Dropped(_) | Fate::AllDropped(_) => None,
    }
}
