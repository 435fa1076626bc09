// Lines that are kept of a text.
ghost use Rattle.std.specs.Prelude.{◌≤◌, length, slice_range};
ghost use Rattle.text_ops.specs.Lines.{IsNormal};

use crate::gathered::{ApplyError, Gathered};
use crate::part::part;
use crate::text::Text;
use outside_io::NoMemory;
use std::alloc::Global;

// Lines of a text, gathered in runs of lines that follow one another. The last run isn't copied yet, so that lines
// of one run are none. `HasKept` says which lines they are.
#[derive(Drop)]
pub(crate) struct LineRuns<'t> {
    pub(crate) text: &'t Text,
    pub(crate) made: Gathered,
    pub(crate) start: usize,
    pub(crate) end: usize,
    ghost rising: { start ≤ end },
    ghost within: { end ≤ length text.now },
    ghost behind: { made.total ≤ start },
    ghost lines: { IsNormal (slice_range text.now start end) },
    ghost copied: { IsNormal made.bytes },
}

impl<'t> LineRuns<'t> {
    ghost use Rattle.std.specs.Prelude.{◌≡◌, ◌≤◌, ◌++◌, ℕ, List, [], length, slice_range, OnOk};
    ghost use Rattle.text_ops.specs.Lines.{IsNormal};
    ghost use Rattle.text_ops.specs.Values.{Makes};
    ghost use Rattle.text_ops.specs.inside.Keeping.{HasKept};

    // No line.
    pub(crate) fn new(alloc: Global, text: &'t Text) -> LineRuns<'t>
        ensures kept { HasKept text.now [] result }
        ensures end { result.end ≡ 0 }
    {
        LineRuns {
            text,
            made: Gathered::new(alloc),
            start: 0,
            end: 0,
        }
    }

    // Keeps the lines from this place up to that as well. After an `Err` nothing more is kept.
    pub(crate) fn keep(&mut self, start: usize, end: usize) -> Result<(), NoMemory>
        requires after { self.old.end ≤ start }
        requires rising { start ≤ end }
        requires within { end ≤ length self.old.text.now }
        requires lines { IsNormal (slice_range self.old.text.now start end) }
        ensures kept { (text all : List ℕ) → HasKept text all self.old
            → OnOk result (HasKept text (all ++ slice_range text start end) self.new) }
        ensures end { OnOk result (self.new.end ≤ end) }
    {
        if start == self.end {
            self.end = end;
            return Ok(());
        }
        if start == end {
            return Ok(());
        }
        let run = &self.text.as_slice()[self.start..self.end];
        if let Err(refused) = self.made.add(run) {
            return Err(refused);
        }
        self.start = start;
        self.end = end;
        Ok(())
    }

    // The text of what was kept, if it isn't too long.
    pub(crate) fn finish(self, alloc: Global) -> Result<Text, ApplyError>
        ensures { (text all : List ℕ) → HasKept text all self.entry → Makes all result }
    {
        let LineRuns {
            text,
            mut made,
            start,
            end,
        } = self;
        if made.total == 0 {
            return part(text, start, end);
        }
        made.add(&text.as_slice()[start..end])?;
        made.finish(alloc)
    }
}
