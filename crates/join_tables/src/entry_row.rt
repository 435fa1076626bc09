// An entry as it lies at its place.
use journal_rules::Entry;
use std::sync::Arc;

/// An entry, and the value of an End.
#[derive(Drop)]
pub struct EntryRow<V> {
    pub entry: Entry,
    pub value: Option<Arc<V>>,
}
