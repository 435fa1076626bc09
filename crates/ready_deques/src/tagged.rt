// Tags: what says which list an item belongs on.
ghost use Rattle.std.specs.Prelude.{ℕ, List};

use boxcar::tag::Names;

/// What has a tag: numbers that say which list the value belongs on. No code reads them.
pub trait Tagged {
    ghost tag: { Self → List ℕ };
}

/// A list has the tag of the value that it is made for.
pub struct ByTag;

impl<K: Tagged> Names<K> for ByTag {
    ghost numbers = { K.tag };
}
