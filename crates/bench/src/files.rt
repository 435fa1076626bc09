// The words of a call, and the files that they name.
ghost use Rattle.std.specs.Prelude.{◌≤◌, IfOk, length};

use outside_io::{FolderTexts, Found, List, Texts};
use std::alloc::AllocError;
use std::env::Args;
use std::io;
use text_ops::Text;

// The most bytes of a text.
const TEXT_LIMIT: u64 = 16_777_215;

/// The next word, which is empty where there is none.
pub fn next_word(rt: &HostRuntime, words: &mut Args) -> String {
    words.next().unwrap_or(String::new(rt.alloc()))
}

/// The bytes of a file that has at most so many.
pub fn bytes_of(rt: &HostRuntime, file: &str, most: u64) -> io::Result<List<u8>>
    ensures { IfOk result (λ bytes. length bytes ≤ most) }
{
    match FolderTexts::new(rt).read(rt.alloc(), file.as_bytes(), most) {
        Ok(Found::Text(bytes)) => Ok(bytes),
        _ => Err(io::ErrorKind::NotFound.into()),
    }
}

/// The text of the file that the next word names.
pub fn text_of(rt: &HostRuntime, words: &mut Args) -> io::Result<Text> {
    let file = next_word(rt, words);
    let bytes = bytes_of(rt, file.as_str(), TEXT_LIMIT)?;
    Ok(Text::from_bytes(rt.alloc(), bytes).map_err(|_| AllocError)?)
}
