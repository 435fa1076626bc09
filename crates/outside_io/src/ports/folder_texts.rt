// Texts in the files of a folder. No contract says what a file holds.
ghost use Rattle.std.specs.Prelude.{◌≡◌, ◌↔◌, [], IfOk, IfSome, IsErr, IsErrOf, IsUtf8, None, Some, take};
ghost use Rattle.std.specs.IoError.{error_kind};
ghost use Rattle.outside_io.specs.Texts.{Finds, IsWithin, failed_after};

use crate::ports::failed_read;
use crate::{Bytes, Found, List, Texts, TextsFault};
use std::alloc::Global;
use std::fs::{self, OpenFile};
use std::io::{self, ErrorKind, Read};
use std::marker::Model;
use std::rt::Files;

/// Texts in files: a name is a path, from the folder in which the program runs.
///
/// A path at which nothing is found is missing. A read of a name that isn't UTF-8 fails, and so does one of a folder in
/// place of a file and one with any other failure.
#[derive(Drop)]
pub struct FolderTexts<R> {
    rt: R,
    failed: List<Bytes>,
}

impl<R> Model for FolderTexts<R> {
    ghost use Rattle.std.specs.Prelude as std;
    ghost use Rattle.std.specs.Prelude.{ℕ};

    ghost Value = { std.List (std.List ℕ) };

    ghost view = { λ texts. texts.failed };
}

impl<R: Files + AllocGlobal + Copy> FolderTexts<R> {
    /// The files that `rt` reaches. No read has failed yet.
    pub fn new(rt: &R) -> FolderTexts<R>
        ensures { result ≡ [] }
    {
        FolderTexts {
            rt: *rt,
            failed: List::new(rt.alloc()),
        }
    }
}

impl<R: Files + Copy> Texts for FolderTexts<R> {
    ghost held = { λ _. None };

    ghost failed = { λ failed. failed };

    fn read(&mut self, alloc: Global, name: &[u8], max: u64) -> Result<Found, TextsFault>
        ensures within { IfOk result (IsWithin max) }
        ensures failed { self.new ≡ failed_after self.old name.now result }
        ensures not_utf8 { ¬ IsUtf8 name.now → IsErr result }
    {
        match read_file(&self.rt, alloc, name, max) {
            Err(TextsFault::Failed) => Err(failed_read(alloc, &mut self.failed, name)),
            found => found,
        }
    }
}

// Reads the file at the path, of at most `max` bytes.
fn read_file<R: Files>(rt: &R, alloc: Global, name: &[u8], max: u64) -> Result<Found, TextsFault>
    ensures within { IfOk result (IsWithin max) }
    ensures not_utf8 { ¬ IsUtf8 name.now → IsErrOf result TextsFault.Failed }
{
    let Ok(path) = str::from_utf8(name) else {
        return Err(TextsFault::Failed);
    };
    let found = match fs::open(rt, path) {
        Ok(file) => read_text(file, alloc, max),
        Err(error) if error.kind() == ErrorKind::NotFound => Ok(Found::Missing),
        Err(error) => Err(error),
    };
    found.map_err(|error| fault_of(&error))
}

// Reads a text of at most `max` bytes. A longer one isn't read to its end.
fn read_text<F: Read + OpenFile + Drop>(file: F, alloc: Global, max: u64) -> io::Result<Found>
    ensures within { IfOk result (IsWithin max) }
    ensures found { IfSome (F.remaining file) (λ held. IfOk result (Finds (Some held) max)) }
{
    // One byte more shows that the text is longer.
    let bytes = read_front(file, alloc, max.saturating_add(1))?;
    if bytes.len() as u64 > max {
        return Ok(Found::Longer);
    }
    Ok(Found::Text(List::from_vec(bytes)))
}

// Reads the first `most` bytes, or all of fewer, into room that fits the length which the file reports.
fn read_front<F: Read + OpenFile + Drop>(file: F, alloc: Global, most: u64) -> io::Result<Vec<u8>>
    ensures { IfSome (F.remaining file)
        (λ held. IfOk result (λ bytes. bytes.items ≡ take most held)) }
{
    let length = file.metadata()?.len().min(most) as usize;
    // One place more, into which the end of the file is read.
    let mut bytes = Vec::with_capacity(alloc, length.saturating_add(1))?;
    file.take(most).read_to_end(&mut bytes)?;
    Ok(bytes)
}

// Want of memory has an answer of its own, and every other error is a fault.
fn fault_of(error: &io::Error) -> TextsFault
    ensures { (result ≡ TextsFault.NoMemory) ↔ (error_kind error.now ≡ ErrorKind.OutOfMemory) }
{
    match error.kind() {
        ErrorKind::OutOfMemory => TextsFault::NoMemory,
        _ => TextsFault::Failed,
    }
}
