//! Sources of texts and sinks in memory, of which given calls fail. They are for tests, and the program has none.
mod memory_sink;
mod memory_texts;

pub use memory_sink::{FailAt, MemorySink};
pub use memory_texts::MemoryTexts;
