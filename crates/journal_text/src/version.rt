// The versions of a journal's text.

/// A version of the text. Version 1 has no line for a fault by an over-release and for a drop for want of a unit.
#[derive(Clone, Copy)]
pub enum Version {
    /// The first, which is still read.
    One,
    /// The one that is written.
    Two,
}
