// Texts whose lines are folded by several workers, in chunks of several sizes.
use grain_tasks::{Fold, reduce_drawn};
use graph_plans::TextOp;
use line_folds::count_lines_with;
use line_maps::LineFold;
use outside_io::{Bytes, List, NoMemory};
use std::alloc::Global;
use std::test::Fail;
use std::thread::Threads;
use text_ops::Text;

// By so many workers, in chunks of so many lines.
const CUTS: [(u32, u64); 9] = [
    (1, 1),
    (1, 2),
    (1, 9),
    (4, 1),
    (4, 2),
    (4, 9),
    (16, 1),
    (16, 2),
    (16, 9),
];

fn text_of(alloc: Global, bytes: &[u8]) -> Result<Text, NoMemory> {
    Text::from_bytes(alloc, List::from_slice(alloc, bytes)?)
}

// What an operation makes of each line of a text, or nothing for a text that isn't short.
fn mapped<R: Threads + Sync>(
    rt: &R,
    alloc: Global,
    op: TextOp,
    bytes: &[u8],
    cut: (u32, u64),
) -> Result<Bytes, NoMemory> {
    let (workers, grain) = cut;
    let text = text_of(alloc, bytes)?;
    if text.len() > 1_000 || !(1..=16).contains(&workers) || grain > 1_000_000 {
        return Ok(List::new(alloc));
    }
    let fold = LineFold::new(alloc, op, &text)?;
    let count = fold.count();
    if count > 1_000 {
        return Ok(List::new(alloc));
    }
    match reduce_drawn(rt, alloc, workers, &fold, count, grain) {
        Ok(value) => Ok(value),
        Err(_error) => Err(NoMemory),
    }
}

#[test]
fn each_line_is_counted(rt: HostRuntime) -> Result<(), Fail> {
    for cut in CUTS {
        let counted = mapped(&rt, rt.alloc(), TextOp::Count, b"1\n2\n3\n4\n5", cut)?;
        assert_eq!(rt; counted.as_slice(), b"1\n1\n1\n1\n1\n".as_slice());
        let none = mapped(&rt, rt.alloc(), TextOp::Count, b"", cut)?;
        assert!(rt; none.as_slice().is_empty());
    }
    Ok(())
}

#[test]
fn lines_with_a_word_are_kept_and_counted(rt: HostRuntime) -> Result<(), Fail> {
    let bytes = b"ab\nc\n\nxb\nbb";
    for (workers, grain) in CUTS {
        let word = List::from_slice(rt.alloc(), b"b")?;
        let kept = mapped(&rt, rt.alloc(), TextOp::Keep(word), bytes, (workers, grain))?;
        assert_eq!(rt; kept.as_slice(), b"ab\nxb\nbb\n".as_slice());
        let text = text_of(rt.alloc(), bytes)?;
        if text.len() > 1_000 || !(1..=16).contains(&workers) || !(1..=9).contains(&grain) {
            continue;
        }
        for (word, lines) in [("b", 3), ("", 5), ("\n", 0), ("xb", 1), ("d", 0)] {
            let found = count_lines_with(&rt, rt.alloc(), workers, word.as_bytes(), &text, grain)?;
            assert_eq!(rt; found, lines, "{word}");
        }
    }
    Ok(())
}
