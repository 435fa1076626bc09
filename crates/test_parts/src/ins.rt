// `join_words`: what a start finds.
use join_words::{Given, Ins};
use outside_io::NoMemory;
use std::alloc::Global;
use std::sync::Arc;
use std::test::Fail;

// Two parts, one a value and one a token.
fn two_parts(alloc: Global) -> Result<Ins<u8>, NoMemory> {
    let mut ins = Ins::with_room(alloc, 2)?;
    ins.add(Given::Value(3, Arc::new(alloc, 7u8)?));
    ins.add(Given::First);
    Ok(ins)
}

fn are_two_parts(ins: &Ins<u8>) -> bool {
    (ins.len() == 2)
        & !ins.is_empty()
        & matches!(ins.get(0), Some(Given::Value(3, item)) if **item == 7)
        & matches!(ins.get(1), Some(Given::First))
        & ins.get(2).is_none()
}

#[test]
fn has_two_parts(rt: HostRuntime) -> Result<(), Fail> {
    let none = Ins::<u8>::with_room(rt.alloc(), 2)?;
    assert!(rt; none.is_empty());
    let ins = two_parts(rt.alloc())?;
    assert!(rt; are_two_parts(&ins));
    Ok(())
}
