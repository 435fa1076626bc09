// The reading of a text, in one pass over its tokens.
ghost use Rattle.std.specs.Prelude.{◌≡◌, ◌≢◌, ◌<◌, ◌++◌, ◌∷◌, [], length, Err, IfOk, IsUtf8, OnOk, Some, None};
ghost use Rattle.json.specs.Json.{items, members, value};
ghost use Rattle.serde_json.specs.Data.{no_members};
ghost use Rattle.serde_json.specs.Read.{converted, of_items, of_json, of_members, read as read_text};
ghost use Rattle.json_values.specs.inside.View.{items_view, members_view, view};

use crate::number::parse;
use crate::value::Value;
use json::{Invalid, Reader, Scratch, Token};
use std::alloc::{AllocError, Global};

/// Why bytes weren't read.
#[derive(Clone, Copy, Drop)]
pub enum Unread {
    /// They are no JSON text in UTF-8, one that nests too deep, or one with a number that is out of range.
    NotJson,
    /// Memory was refused. It says nothing of the bytes.
    NoMemory,
}

impl From<Invalid> for Unread {
    ghost use Rattle.std.specs.Prelude.{◌≡◌};
    ghost use Rattle.json_values.specs.declared.read.Unread.TheVariants.{NotJson};

    ghost from_gives = { λ _ error. error ≡ NotJson };

    fn from(_: Invalid) -> Self {
        Unread::NotJson
    }
}

impl From<AllocError> for Unread {
    ghost use Rattle.std.specs.Prelude.{◌≡◌};
    ghost use Rattle.json_values.specs.declared.read.Unread.TheVariants.{NoMemory};

    ghost from_gives = { λ _ error. error ≡ NoMemory };

    fn from(_: AllocError) -> Self {
        Unread::NoMemory
    }
}

const MAX_DEPTH: usize = 127;

impl<'v> Value<'v> {
    /// The value that bytes are. A string with an escape is written into `scratch`, which grows to at most as many
    /// bytes as `bytes` has.
    pub fn from_slice(
        alloc: Global,
        bytes: &'v [u8],
        scratch: &'v mut Scratch,
    ) -> Result<Value<'v>, Unread>
        ensures ok { IfOk result (λ v. IsUtf8 bytes.now × (read_text bytes.now ≡ Some (view v))) }
        ensures refused { result ≡ Err Unread.NotJson → IsUtf8 bytes.now
            → read_text bytes.now ≡ None }
    {
        match simdutf8::basic::from_utf8(bytes) {
            Ok(text) => read_all(alloc, text, scratch),
            Err(_) => Err(Unread::NotJson),
        }
    }
}

fn read_all<'v>(alloc: Global, text: &'v str, scratch: &'v mut Scratch) -> Result<Value<'v>, Unread>
    ensures ok { IfOk result (λ v. read_text text.now ≡ Some (view v)) }
    ensures refused { result ≡ Err Unread.NotJson → read_text text.now ≡ None }
{
    let mut reader = Reader::new(text, scratch)?;
    let value = read(alloc, &mut reader, MAX_DEPTH)?;
    if reader.next().is_some() {
        return Err(Unread::NotJson);
    }
    Ok(value)
}

// The next value, in which arrays and objects nest no deeper.
#[cycle(read)]
#[inline(always)]
fn read<'v>(alloc: Global, reader: &mut Reader<'v>, depth: usize) -> Result<Value<'v>, Unread>
    ensures ok { IfOk result
        (λ v. converted of_json (value depth reader.old) ≡ Some (view v, reader.new)) }
    ensures shorter { OnOk result (length reader.new < length reader.old) }
    ensures err { result ≡ Err Unread.NotJson → converted of_json (value depth reader.old) ≡ None }
{
    let token = reader.next().ok_or(Unread::NotJson)?;
    match token {
        Token::String(text) => Ok(Value::String(text)),
        Token::Number(text) => match parse(text) {
            Some(number) => Ok(Value::Number(number)),
            None => Err(Unread::NotJson),
        },
        Token::Bool(truth) => Ok(Value::Bool(truth)),
        Token::Null => Ok(Value::Null),
        Token::EndObject | Token::EndArray | Token::Key(_) | Token::Bad => Err(Unread::NotJson),
        Token::BeginArray => {
            if depth == 0 {
                return Err(Unread::NotJson);
            }
            Ok(Value::Array(read_items(alloc, reader, depth - 1)?))
        }
        Token::BeginObject => {
            if depth == 0 {
                return Err(Unread::NotJson);
            }
            Ok(Value::Object(read_members(alloc, reader, depth - 1)?))
        }
    }
}

// The items behind an opening bracket, up to the closing one.
#[cycle(read)]
#[inline(never)]
fn read_items<'v>(
    alloc: Global,
    reader: &mut Reader<'v>,
    depth: usize,
) -> Result<Vec<Value<'v>>, Unread>
    ensures ok { IfOk result
        (λ v. converted of_items (items (value depth) (length reader.old) reader.old)
        ≡ Some (items_view v.items, reader.new)) }
    ensures shorter { OnOk result (length reader.new < length reader.old) }
    ensures err { result ≡ Err Unread.NotJson
        → converted of_items (items (value depth) (length reader.old) reader.old) ≡ None }
{
    let mut found = Vec::new(alloc);
    'items: while !reader.take_end_array() {
        let item = read(alloc, reader, depth)?;
        push(&mut found, item)?;
    }
    Ok(found)
}

// The members behind an opening brace, up to the closing one.
#[cycle(read)]
#[inline(never)]
fn read_members<'v>(
    alloc: Global,
    reader: &mut Reader<'v>,
    depth: usize,
) -> Result<Vec<(&'v str, Value<'v>)>, Unread>
    ensures ok { IfOk result
        (λ v. converted (λ ms. of_members ms no_members)
        (members (value depth) (length reader.old) reader.old)
        ≡ Some (members_view v.items, reader.new)) }
    ensures shorter { OnOk result (length reader.new < length reader.old) }
    ensures err { result ≡ Err Unread.NotJson
        → converted (λ ms. of_members ms no_members)
        (members (value depth) (length reader.old) reader.old) ≡ None }
{
    let mut found = Vec::new(alloc);
    'members: while let Some(name) = reader.next_key()? {
        let member = read(alloc, reader, depth)?;
        push(&mut found, (name, member))?;
    }
    Ok(found)
}

// Puts an item at the end.
#[inline(always)]
fn push<T: Drop>(items: &mut Vec<T>, item: T) -> Result<(), Unread>
    ensures ok { OnOk result (items.new.items ≡ items.old.items ++ item ∷ []) }
    ensures err { result ≢ Err Unread.NotJson }
{
    if items.len() < items.capacity() {
        items.push_reserved(item);
        return Ok(());
    }
    match items.push(item) {
        Ok(()) => Ok(()),
        Err(_) => Err(Unread::NoMemory),
    }
}
