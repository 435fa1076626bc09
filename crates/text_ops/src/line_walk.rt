// The lines of a text, one after another.
ghost use Rattle.std.specs.Prelude.{◌≡◌};
ghost use Rattle.std.specs.Iterator.{YieldsFirstRef, item_count};
ghost use Rattle.text_ops.specs.Lines.{IsNormal, lines_of};

use memchr::memchr;
use std::marker::Model;

// The lines that are left, without their ends. Contracts see the list of them.
#[derive(Drop)]
pub(crate) struct Lines<'t> {
    rest: &'t [u8],
}

impl<'t> Model for Lines<'t> {
    ghost use Rattle.std.specs.Prelude.{ℕ, List};

    ghost Value = { List (List ℕ) };

    ghost use Rattle.text_ops.specs.Lines.{IsNormal, lines_of};

    ghost view = { λ lines. lines_of lines.rest.now };

    ghost invariant = { λ lines. IsNormal lines.rest.now };
}

impl<'t> Lines<'t> {
    // The lines of a text.
    pub(crate) fn new(text: &'t [u8]) -> Lines<'t>
        requires { IsNormal text.now }
        ensures { result ≡ lines_of text.now }
    {
        Lines { rest: text }
    }
}

impl<'t> Iterator for Lines<'t> {
    type Item = &'t [u8];

    ghost next_gives = { YieldsFirstRef (λ lines. lines) };

    ghost remaining = { item_count (λ lines. lines) };

    #[inline]
    fn next(&mut self) -> Option<&'t [u8]> {
        let rest = self.rest;
        let end = memchr(b'\n', rest)?;
        self.rest = &rest[end + 1..];
        Some(&rest[..end])
    }
}
