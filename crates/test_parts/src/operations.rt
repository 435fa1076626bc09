// `text_ops`: each operation on texts with values written by hand, and on a hundred texts with values that another
// program computed.
use crate::fields::bytes_of;
use crate::operation_cases::{BY_HAND, COMPUTED, OPS, SIZES};
use outside_io::{List, NoMemory};
use std::alloc::Global;
use std::process::Abort;
use std::test::Fail;
use text_ops::{
    ApplyError, Text, count, has_word, head, is_normal, keep, match_lines, pass, skip, sort, tail,
    tally, uniq, without,
};

// What the operation of this name makes of a text, with what follows the name.
fn apply(alloc: Global, op: &str, text: &Text) -> Result<Text, ApplyError> {
    let (name, operand) = op.split_once(' ').unwrap_or((op, ""));
    let number = operand.parse::<u64>().unwrap_or(0);
    let word = bytes_of(alloc, operand)?;
    match name {
        "pass" => pass(text),
        "keep" => keep(alloc, word.as_slice(), text),
        "without" => without(alloc, word.as_slice(), text),
        "head" => head(text, number),
        "tail" => tail(text, number),
        "skip" => skip(text, number),
        "sort" => sort(alloc, text),
        "uniq" => uniq(alloc, text),
        "count" => count(alloc, text),
        "tally" => tally(alloc, text),
        "has" => Ok(answer(alloc, has_word(word.as_slice(), text))?),
        _ => match_lines(alloc, text, &Text::from_bytes(alloc, word)?),
    }
}

fn answer(alloc: Global, yes: bool) -> Result<Text, NoMemory> {
    let word: &[u8] = if yes { b"yes" } else { b"no" };
    Text::from_bytes(alloc, List::from_slice(alloc, word)?)
}

// Whether the operation makes this value of a text.
fn expect(rt: &impl Abort, alloc: Global, op: &str, text: &str, value: &str) -> Result<(), Fail> {
    let made = apply(alloc, op, &Text::from_bytes(alloc, bytes_of(alloc, text)?)?)?;
    let value = bytes_of(alloc, value)?;
    assert!(rt; is_normal(made.as_slice()));
    assert!(rt; made.as_slice() == value.as_slice(), "{op} of {text}");
    Ok(())
}

#[test]
fn gives_values_written_by_hand(rt: HostRuntime) -> Result<(), Fail> {
    for row in BY_HAND.lines() {
        let mut fields = row.split('|');
        let op = fields.next().unwrap_or("");
        let text = fields.next().unwrap_or("");
        expect(&rt, rt.alloc(), op, text, fields.next().unwrap_or(""))?;
    }
    Ok(())
}

#[test]
fn gives_what_another_program_computed(rt: HostRuntime) -> Result<(), Fail> {
    for row in COMPUTED.lines() {
        let mut fields = row.split('|');
        let text = fields.next().unwrap_or("");
        for op in OPS.split('|') {
            expect(&rt, rt.alloc(), op, text, fields.next().unwrap_or(""))?;
        }
    }
    Ok(())
}

// How many bytes operations make of a text, or would make where these are too many.
fn expect_sizes(rt: &impl Abort, alloc: Global, table: &str, text: &Text) -> Result<(), Fail> {
    for row in table.lines() {
        let (op, expected) = row.split_once('|').unwrap_or((row, ""));
        let size = match apply(alloc, op, text) {
            Ok(made) => made.len() as u64,
            Err(ApplyError::Long(bytes)) => bytes,
            Err(ApplyError::NoMemory) => 0,
        };
        assert!(rt; expected.parse() == Ok(size), "{op}");
    }
    Ok(())
}

// A line of a word `k` and so many letters.
fn long_line(alloc: Global, letters: u32) -> Result<Text, NoMemory> {
    let mut line = List::from_slice(alloc, b"k ")?;
    for _ in 0..letters {
        line.push(b'x')?;
    }
    Text::from_bytes(alloc, line)
}

// Whether two lines that are joined with a line of the greatest length are refused, with the bytes that they would
// have.
fn is_joined_too_long(alloc: Global, line: &Text) -> Result<bool, NoMemory> {
    let left = Text::from_bytes(alloc, List::from_slice(alloc, b"k\nk")?)?;
    let refused = match_lines(alloc, &left, line).err();
    Ok(refused == Some(ApplyError::Long(33_554_432)))
}

#[test]
fn refuses_values_that_are_too_long(rt: HostRuntime) -> Result<(), Fail> {
    let line = long_line(rt.alloc(), 16_777_213)?;
    let sizes = "sort|16777216\nkeep x|16777216\nuniq|16777216\ntally|16777218";
    expect_sizes(&rt, rt.alloc(), sizes, &line)?;
    assert!(rt; is_joined_too_long(rt.alloc(), &line)?);
    let line = long_line(rt.alloc(), 33_554_428)?;
    expect_sizes(&rt, rt.alloc(), SIZES, &line)
}
