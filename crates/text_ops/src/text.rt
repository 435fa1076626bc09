// Texts that share their bytes.
ghost use Rattle.std.specs.Prelude.{◌≡◌, ◌≤◌, [], length, slice_range, IfOk};
ghost use Rattle.text_ops.specs.Lines.{IsNormal, normal};

use crate::normal_text::into_normal;
use outside_io::{Bytes, NoMemory};
use std::alloc::Global;
use std::marker::Model;
use std::sync::Arc;

/// A text that is empty or ends with a line end. Its bytes may be shared with other texts, and don't change: another
/// text of the same bytes, or of a part of them, costs no copy. Contracts see it as its bytes.
#[derive(Drop)]
pub struct Text {
    bytes: Option<Arc<Bytes>>,
    start: usize,
    end: usize,
}

impl Model for Text {
    ghost use Rattle.std.specs.Prelude.{ℕ, List};

    ghost Value = { List ℕ };

    ghost use Rattle.text_ops.specs.inside.SharedText.{shown, IsShown};

    ghost view = { shown };

    ghost invariant = { IsShown };
}

impl Text {
    /// The empty text. It takes no memory.
    pub fn new() -> Text
        ensures { result ≡ [] }
    {
        Text {
            bytes: None,
            start: 0,
            end: 0,
        }
    }

    /// The text of these bytes, which aren't copied, with byte 10 put after a last line that lacks it.
    pub fn from_bytes(alloc: Global, bytes: Bytes) -> Result<Text, NoMemory>
        ensures { IfOk result (λ text. text ≡ normal bytes) }
    {
        Text::from_lines(alloc, into_normal(bytes)?)
    }

    /// The text of these bytes, which aren't copied. The empty text takes no memory.
    pub fn from_lines(alloc: Global, lines: Bytes) -> Result<Text, NoMemory>
        requires { IsNormal lines }
        ensures { IfOk result (λ text. text ≡ lines) }
    {
        let end = lines.len();
        if end == 0 {
            return Ok(Text::new());
        }
        let bytes = Arc::new(alloc, lines)?;
        Ok(Text {
            bytes: Some(bytes),
            start: 0,
            end,
        })
    }

    /// The bytes.
    pub fn as_slice(&self) -> &[u8]
        ensures value { result.now ≡ self.now }
        ensures normal { IsNormal self.now }
    {
        match &self.bytes {
            Some(bytes) => &bytes.as_slice()[self.start..self.end],
            None => &[],
        }
    }

    /// How many bytes there are.
    pub fn len(&self) -> usize
        ensures { result ≡ length self.now }
    {
        self.as_slice().len()
    }

    /// The same text, of the same bytes.
    pub fn share(&self) -> Result<Text, NoMemory>
        ensures { IfOk result (λ text. text ≡ self.now) }
    {
        let end = self.as_slice().len();
        self.cut(0, end)
    }

    /// The lines from this place up to that, which share the text's bytes.
    pub(crate) fn cut(&self, start: usize, end: usize) -> Result<Text, NoMemory>
        requires rising { start ≤ end }
        requires within { end ≤ length self.now }
        requires lines { IsNormal (slice_range self.now start end) }
        ensures { IfOk result (λ text. text ≡ slice_range self.now start end) }
    {
        let Some(bytes) = &self.bytes else {
            return Ok(Text::new());
        };
        if start == end {
            return Ok(Text::new());
        }
        let bytes = Arc::try_clone(bytes)?;
        Ok(Text {
            bytes: Some(bytes),
            start: self.start + start,
            end: self.start + end,
        })
    }
}
