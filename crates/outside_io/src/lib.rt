//! What the other crates hold and reach outside with. It has two parts: lists, and sources of texts with sinks for
//! bytes.
//!
//! The layer above sees a `List` as the list of its items. It sees a source of texts as the map of what it holds with
//! the names whose reads failed, and a sink as the bytes that it took with a count of its faults. What a folder or a
//! terminal holds is said by no contract. The sources and sinks of `for_tests` are in memory, and say all of it. The
//! definitions are in `specs/`.
#![tactic(auto)]

pub mod for_tests;
mod list;
mod ports;

pub use list::{Back, Bytes, List, NoMemory};
pub use ports::{
    FolderTexts, Found, Sink, SinkFault, StandardStreams, StdSink, Texts, TextsFault, add_numbered,
    put_piece,
};
