// How bytes are written in the fields of a table: `~` stands for a line feed, `&` for a carriage return, `_` for a
// space, `^` for byte 0, and `$` and `%` for the bytes 255 and 254.
use outside_io::{Bytes, List, NoMemory};
use std::alloc::Global;

/// The bytes that a field stands for.
pub(crate) fn bytes_of(alloc: Global, field: &str) -> Result<Bytes, NoMemory> {
    let mut bytes = List::new(alloc);
    for byte in field.as_bytes() {
        bytes.push(byte_of(*byte))?;
    }
    Ok(bytes)
}

/// Whether these are the bytes that a field stands for.
pub(crate) fn are_bytes_of(bytes: &[u8], field: &str) -> bool {
    for (place, sign) in field.as_bytes().iter().enumerate() {
        if bytes.get(place).copied() != Some(byte_of(*sign)) {
            return false;
        }
    }
    bytes.len() == field.len()
}

fn byte_of(sign: u8) -> u8 {
    match sign {
        b'~' => b'\n',
        b'&' => b'\r',
        b'_' => b' ',
        b'^' => 0,
        b'$' => 255,
        b'%' => 254,
        other => other,
    }
}
