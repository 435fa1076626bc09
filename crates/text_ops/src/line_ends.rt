// How many line ends there are.
ghost use Rattle.std.specs.Prelude.{◌≡◌, ◌≤◌, length};
ghost use Rattle.text_ops.specs.inside.Cuts.{end_count};

/// So many bytes are counted at once. A byte holds the number of their line ends, so that the compiler counts those of
/// many bytes side by side.
pub(crate) const BLOCK: usize = 128;

/// How many line ends these bytes have.
pub(crate) fn line_ends(bytes: &[u8]) -> usize
    ensures { result ≡ end_count bytes.now }
{
    let mut ends = 0;
    for block in bytes.chunks(BLOCK) {
        ends += usize::from(block_line_ends(block));
    }
    ends
}

/// How many line ends a block has.
pub(crate) fn block_line_ends(block: &[u8]) -> u8
    requires { length block.now ≤ 128 }
    ensures { result ≡ end_count block.now }
{
    let mut ends = 0;
    for byte in block {
        if *byte == b'\n' {
            ends += 1;
        }
    }
    ends
}
