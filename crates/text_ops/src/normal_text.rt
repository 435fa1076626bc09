// Texts that are empty or end with a line end.
ghost use Rattle.std.specs.Prelude.{◌≡◌, ◌↔◌, ◌+◌, ◌≤◌, length, IsTrue, IfOk};
ghost use Rattle.text_ops.specs.Lines.{IsNormal, normal};

use outside_io::{Bytes, NoMemory};

/// Whether the text is empty or ends with byte 10.
pub fn is_normal(text: &[u8]) -> bool
    ensures { IsTrue result ↔ IsNormal text.now }
{
    match text.last() {
        Some(byte) => *byte == b'\n',
        None => true,
    }
}

/// The text itself, with byte 10 put after a last line that lacks it. A normal text comes back as
/// it is, whether there is memory or not.
pub fn into_normal(text: Bytes) -> Result<Bytes, NoMemory>
    ensures value { IfOk result (λ made. made ≡ normal text) }
    ensures normal { IfOk result IsNormal }
    ensures small { IfOk result (λ made. length made ≤ length text + 1) }
    ensures as_it_is { IsNormal text → result ≡ Ok text }
{
    let mut made = text;
    if !is_normal(made.as_slice()) {
        made.push(b'\n')?;
    }
    Ok(made)
}
