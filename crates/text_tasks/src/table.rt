// The texts that were read.
ghost use Rattle.std.specs.Prelude.{◌≡◌, ◌++◌, ◌∷◌, [], length, map, slice_get, IfOk, OnOk, OnErr};
ghost use Rattle.std.specs.Option.{option_copied};

use boxcar::Pushed;
use outside_io::{List, NoMemory};
use std::alloc::Global;
use std::marker::Model;
use std::sync::Wait;
use text_ops::Text;

/// The texts that tasks read, by number. Contracts see it as the list of them.
///
/// The texts are in a vector that only grows. Beside it is for each number the token of its push, by which just
/// that text is found. A job shares its table and never changes it, so those who work on a run read it without a lock.
#[derive(Drop)]
pub struct TextTable {
    texts: boxcar::Vec<Text>,
    pushed: List<Pushed<Text>>,
}

impl Model for TextTable {
    ghost use Rattle.std.specs.Prelude.{ℕ, List, All, map};
    ghost use Rattle.boxcar.specs.Table.{Shows};

    ghost Value = { List (List ℕ) };

    ghost view = { λ table. map (λ pushed. pushed.value) table.pushed };

    ghost invariant = { λ table. All (Shows table.texts) table.pushed };
}

impl TextTable {
    /// No text.
    pub fn new(alloc: Global) -> Result<TextTable, NoMemory>
        ensures { IfOk result (λ table. table ≡ []) }
    {
        let texts = boxcar::Vec::new(alloc)?;
        Ok(TextTable {
            texts,
            pushed: List::new(alloc),
        })
    }

    /// Adds a text, whose number is that of the texts that were added before. After an `Err` the table is as it was.
    pub fn add<R: Wait>(&mut self, rt: &R, text: Text) -> Result<(), NoMemory>
        ensures ok { OnOk result (self.new ≡ self.old ++ text ∷ []) }
        ensures err { OnErr result (self.new ≡ self.old) }
    {
        let Ok(pushed) = self.texts.push_shown(rt, text) else {
            return Err(NoMemory);
        };
        match self.pushed.push(pushed) {
            Ok(()) => Ok(()),
            Err(_) => Err(NoMemory),
        }
    }

    /// The text of a number, or `None` where there are no more than so many.
    pub fn get(&self, number: u32) -> Option<&Text>
        ensures { option_copied result ≡ slice_get self.now number }
    {
        let pushed = self.pushed.get(number as usize)?;
        Some(self.texts.value(pushed))
    }

    /// How many texts there are.
    pub fn len(&self) -> usize
        ensures { result ≡ length self.now }
    {
        self.pushed.len()
    }
}
