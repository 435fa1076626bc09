// Whether a text's sort keys can be short.
ghost use Rattle.std.specs.Prelude.{◌↔◌, ◌-◌, ◌^◌, IsTrue};
ghost use Rattle.text_ops.specs.Lines.{IsNormal, lines_of};
ghost use Rattle.text_ops.specs.inside.SortKeys.{AreUpTo, KeysFit};

use memchr::memrchr;

// The longest line whose length a short sort key holds has so many bytes, with its end.
const MOST: usize = u16::MAX as usize + 1;

/// Whether short sort keys hold the places and the lengths of these lines. Long ones hold all.
pub(crate) fn short_keys_fit(text: &[u8]) -> bool
    requires { IsNormal text.now }
    ensures short { IsTrue result ↔ KeysFit (2 ^ 32 - 1) (2 ^ 16 - 1) text.now }
    ensures long { KeysFit (2 ^ 64 - 1) (2 ^ 64 - 1) text.now }
{
    text.len() <= u32::MAX as usize && are_short_lines(text)
}

// Whether no line has more than 65,535 bytes. From the end of a line it goes on to the last line end among the 65,536
// bytes behind it, so that it looks for few.
fn are_short_lines(text: &[u8]) -> bool
    requires { IsNormal text.now }
    ensures { IsTrue result ↔ AreUpTo (2 ^ 16 - 1) (lines_of text.now) }
{
    let mut at = 0;
    while text.len() - at > MOST {
        let Some(end) = memrchr(b'\n', &text[at..at + MOST]) else {
            return false;
        };
        at += end + 1;
    }
    true
}
