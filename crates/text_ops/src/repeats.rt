// The lines that differ from the line just before them.
ghost use Rattle.std.specs.Prelude.{◌≡◌};
ghost use Rattle.std.specs.Option.{option_copied};
ghost use Rattle.text_ops.specs.TextMeaning.{uniq_meaning};
ghost use Rattle.text_ops.specs.Values.{Makes};
ghost use Rattle.text_ops.specs.inside.Repeating.{is_repeated};

use crate::gathered::ApplyError;
use crate::line_runs::LineRuns;
use crate::line_walk::Lines;
use crate::text::Text;
use std::alloc::Global;

/// The lines that differ from the line just before them.
pub fn uniq(alloc: Global, text: &Text) -> Result<Text, ApplyError>
    ensures { Makes (uniq_meaning text.now) result }
{
    let mut kept = LineRuns::new(alloc, text);
    let mut before: Option<&[u8]> = None;
    let mut start = 0;
    for line in Lines::new(text.as_slice()) {
        let end = start + line.len() + 1;
        if !is_repeated(before, line) {
            kept.keep(start, end)?;
        }
        before = Some(line);
        start = end;
    }
    kept.finish(alloc)
}

// Whether the line is the one before it, if there is one.
fn is_repeated(before: Option<&[u8]>, line: &[u8]) -> bool
    ensures { result ≡ is_repeated (option_copied before.entry) line.now }
{
    match before {
        Some(before) => before == line,
        None => false,
    }
}
