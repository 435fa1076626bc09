// Where bytes come from and go to: sources of named texts, sinks, and what is shared by those who write on sinks.
mod folder_texts;
mod lines;
mod sink;
mod std_sink;
mod texts;

pub use folder_texts::FolderTexts;
pub use lines::{add_numbered, put_piece};
pub use sink::{Sink, SinkFault};
pub use std_sink::{StandardStreams, StdSink};
pub(crate) use texts::failed_read;
pub use texts::{Found, Texts, TextsFault};
