//! Watchers of a run: each is told the spans that end on its worker. A boxed watcher is one.
//!
//! The layer above sees a watcher's count, and the list of spans where the watcher tells it. The meanings
//! are with the trait, their words in `specs/Watch.antt`.
#![tactic(auto)]

mod boxed;
mod span_count;
mod span_fuse;
mod span_list;
mod watch;

pub use span_count::SpanCount;
pub use span_fuse::SpanFuse;
pub use span_list::SpanList;
pub use watch::Watch;
