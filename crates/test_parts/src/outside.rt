// `outside_io`: lists, and sources of texts and sinks that fail at the calls that were named. The texts of a folder are
// in files.
use outside_io::for_tests::{FailAt, MemorySink, MemoryTexts};
use outside_io::{
    Bytes, FolderTexts, Found, List, NoMemory, Sink, SinkFault, StdSink, Texts, TextsFault,
};
use std::alloc::Global;
use std::fs;
use std::process::Abort;
use std::test::Fail;

// The items 7, 97 and 98, one pushed and two added at once.
fn grown(alloc: Global) -> Result<List<u8>, NoMemory> {
    let mut list = List::with_room(alloc, 2)?;
    list.push(7)?;
    list.add_all(b"ab")?;
    Ok(list)
}

fn sum(list: &List<u8>) -> u64 {
    let mut sum = 0u64;
    for item in list {
        sum = sum.wrapping_add(u64::from(*item));
    }
    sum
}

// Whether these are the items 7, 97 and 98.
fn is_grown(list: &List<u8>) -> bool {
    (list.len() == 3)
        & (list.get(2).copied() == Some(98))
        & list.get(3).is_none()
        & list.contains(&97)
        & (sum(list) == 202)
        & (list.iter().filter(|item| **item > 90).count() == 2)
}

#[test]
fn grows_and_copies(rt: HostRuntime) -> Result<(), Fail> {
    let mut list = grown(rt.alloc())?;
    assert!(rt; is_grown(&list) & is_grown(&list.copy()?));
    let other = List::from_slice(rt.alloc(), &[7, 97, 98])?;
    assert!(rt; list.as_slice() == other.as_slice());
    assert!(rt;
        (list.pop() == Some(98)) & (list.len() == 2) & List::<u8>::new(rt.alloc()).is_empty()
    );
    Ok(())
}

// What a read answered: the text, or a word for what there is in its place.
fn shown(found: &Result<Found, TextsFault>) -> &[u8] {
    match found {
        Ok(Found::Text(text)) => text.as_slice(),
        Ok(Found::Missing) => b"missing",
        Ok(Found::Longer) => b"longer",
        Err(TextsFault::Failed) => b"failed",
        Err(TextsFault::NoMemory) => b"no memory",
    }
}

/// A read in a table: the name, the most bytes, and what is answered.
type ReadRow = (&'static [u8], u64, &'static [u8]);

// Whether the reads of a table answer what it says.
fn expect_reads<T: Texts>(rt: &impl Abort, alloc: Global, texts: &mut T, table: &[ReadRow]) {
    for (call, (name, max, expected)) in table.iter().enumerate() {
        let found = texts.read(alloc, name, *max);
        assert!(rt; shown(&found) == *expected, "call {call}");
    }
}

fn lists(alloc: Global, items: &[&[u8]]) -> Result<List<Bytes>, NoMemory> {
    let mut lists = List::new(alloc);
    for item in items {
        lists.push(List::from_slice(alloc, item)?)?;
    }
    Ok(lists)
}

const IN_MEMORY: [ReadRow; 8] = [
    (b"t", 4, b"x\ny\n"),
    (b"t", 3, b"longer"),
    (b"t", 4, b"failed"),
    (b"e", 0, b""),
    (b"q", 4, b"failed"),
    (b"q", 4, b"missing"),
    (b"", 4, b"missing"),
    (b"g", u64::MAX, b"{}"),
];

// Names are to differ, and to be as many as the texts.
#[test]
fn tells_whether_names_differ(rt: HostRuntime) -> Result<(), Fail> {
    let alloc = rt.alloc();
    let two = lists(alloc, &[b"a", b"b"])?;
    let twice = lists(alloc, &[b"a", b"a"])?;
    let one = lists(alloc, &[b"a"])?;
    assert!(rt;
        MemoryTexts::are_named(&two, &twice)
            & !MemoryTexts::are_named(&twice, &two)
            & !MemoryTexts::are_named(&two, &one)
    );
    Ok(())
}

// The texts `g`, `e` and `t`, of which the calls 2 and 4 fail.
fn held_texts(alloc: Global) -> Result<MemoryTexts, Fail> {
    let names = lists(alloc, &[b"g", b"e", b"t"])?;
    let texts = lists(alloc, &[b"{}", b"", b"x\ny\n"])?;
    if !MemoryTexts::are_named(&names, &texts) {
        return Err("names that don't differ".into());
    }
    let failing = List::from_slice(alloc, &[2, 4])?;
    Ok(MemoryTexts::new(alloc, names, texts, failing))
}

#[test]
fn reads_and_fails_at_its_calls(rt: HostRuntime) -> Result<(), Fail> {
    let mut held = held_texts(rt.alloc())?;
    expect_reads(&rt, rt.alloc(), &mut held, &IN_MEMORY);
    Ok(())
}

const IN_FILES: [ReadRow; 8] = [
    (b"lines.txt", 100, b"x\ny\n"),
    (b"lines.txt", 4, b"x\ny\n"),
    (b"lines.txt", 3, b"longer"),
    (b"empty.txt", 0, b""),
    (b"absent.txt", 100, b"missing"),
    (b".", 100, b"failed"),
    (b"lines.txt/below", 100, b"failed"),
    (b"\xff", 100, b"failed"),
];

#[test]
fn reads_files(rt: HostRuntime) -> Result<(), Fail> {
    fs::write(&rt, "lines.txt", "x\ny\n")?;
    fs::write(&rt, "empty.txt", "")?;
    let mut texts = FolderTexts::new(&rt);
    expect_reads(&rt, rt.alloc(), &mut texts, &IN_FILES);
    fs::remove_file(&rt, "lines.txt")?;
    fs::remove_file(&rt, "empty.txt")?;
    Ok(())
}

const FAILING: [FailAt; 3] = [
    FailAt { call: 1, taken: 2 },
    FailAt { call: 1, taken: 0 },
    FailAt { call: 3, taken: 9 },
];

// Puts in turn, what is answered, and all that was taken up to there.
const PUTS: [(&[u8], Result<(), SinkFault>, &[u8]); 5] = [
    (b"ab", Ok(()), b"ab"),
    (b"cde", Err(SinkFault::Failed), b"abcd"),
    (b"", Ok(()), b"abcd"),
    (b"fg", Err(SinkFault::Failed), b"abcdfg"),
    (b"h", Ok(()), b"abcdfgh"),
];

#[test]
fn takes_and_fails_at_its_calls(rt: HostRuntime) -> Result<(), Fail> {
    let alloc = rt.alloc();
    let mut sink = MemorySink::new(alloc, List::from_slice(alloc, &FAILING)?);
    for (piece, expected, bytes) in &PUTS {
        assert!(rt; (sink.put(*piece) == *expected) & (sink.bytes() == *bytes));
    }
    Ok(())
}

#[test]
fn puts_lines_on_both_streams(rt: HostRuntime) -> Result<(), Fail> {
    let mut out = StdSink::out(rt.alloc(), &rt);
    out.put(b"a line of output\n")?;
    out.flush()?;
    let mut notes = StdSink::notes(rt.alloc(), &rt);
    notes.put(b"a line of notes\n")?;
    notes.flush()?;
    Ok(())
}
