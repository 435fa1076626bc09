// Lines of words and a number.
ghost use Rattle.std.specs.Prelude.{◌≡◌, ◌++◌, OnOk};
ghost use Rattle.flow_run.specs.Generated.{number_line};

use outside_io::{Bytes, NoMemory, add_numbered};

/// Adds a line of these words and a number.
pub(crate) fn add_number_line(
    summary: &mut Bytes,
    words: &[u8],
    number: u64,
) -> Result<(), NoMemory>
    ensures { OnOk result (summary.new ≡ summary.old ++ number_line words.now number) }
{
    add_numbered(summary, words, number)?;
    summary.push(b'\n')?;
    Ok(())
}
