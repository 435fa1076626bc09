// A line with how often it occurs.
ghost use Rattle.std.specs.Prelude.{◌≤◌};

/// A line, and how often it was counted.
#[derive(Clone, Copy)]
pub(crate) struct CountedLine<'t> {
    pub(crate) line: &'t [u8],
    pub(crate) count: u64,
    ghost some: { 1 ≤ count },
}
