// `ready_deques`: who takes which item, by one thread and by four.
ghost use Rattle.std.specs.Prelude.{◌≡◌, [], All, IfOk};
ghost use Rattle.ready_deques.specs.Lists.{tag_of};

use crate::numbers::{Number, next_owner};
use ready_deques::{Owner, Ready, Shares};
use std::alloc::Global;
use std::sync::Wait;
use std::test::Fail;
use std::thread::{Threads, for_each_mut};

fn push_three(rt: &impl Wait, owner: &mut Owner<Number>) -> bool
    requires { owner.old.tag ≡ [] }
    ensures { owner.new ≡ owner.old }
{
    owner.push(rt, Number(1)).is_ok()
        & owner.push(rt, Number(2)).is_ok()
        & owner.push(rt, Number(3)).is_ok()
}

// Whether an owner that pushed takes the newest, and another one what came from outside before the oldest of it.
fn are_taken_in_order(
    rt: &impl Wait,
    ready: &Ready<Number>,
    first: &mut Owner<Number>,
    second: &mut Owner<Number>,
) -> bool
    requires list { tag_of ready.now ≡ [] }
    requires owner { first.old.tag ≡ [] }
{
    push_three(rt, first)
        & (first.take_own() == Some(Number(3)))
        & (second.take(rt) == Some(Number(1)))
        & ready.inject(rt, Number(9)).is_ok()
        & (second.take(rt) == Some(Number(9)))
        & (second.take(rt) == Some(Number(2)))
        & (second.take(rt) == None)
        & (first.take_own() == None)
}

#[test]
fn steals(rt: HostRuntime) -> Result<(), Fail> {
    let Shares { ready, mut owners } = Ready::<Number>::new(rt.alloc(), 2, &Number(0))?;
    let mut second = next_owner(&mut owners)?;
    let mut first = next_owner(&mut owners)?;
    assert!(rt; are_taken_in_order(&rt, &ready, &mut first, &mut second));
    Ok(())
}

/// An owner, the first of the numbers that it queues, and those that it took.
#[derive(Drop)]
struct OwnerHand {
    owner: Owner<Number>,
    from: u32,
    taken: Vec<u32>,
}

// Queues 250 numbers, those of the last hand from outside.
fn queue_all<R: Wait>(rt: &R, ready: &Ready<Number>, hand: &mut OwnerHand)
    requires list { tag_of ready.now ≡ [] }
    requires owner { hand.old.owner.tag ≡ [] }
    ensures { hand.new.owner ≡ hand.old.owner }
{
    for item in hand.from..hand.from.saturating_add(250) {
        if hand.from == 750 {
            let _ = ready.inject(rt, Number(item));
        } else {
            let _ = hand.owner.push(rt, Number(item));
        }
    }
}

// Takes items until none is queued.
fn take_all<R: Wait>(rt: &R, hand: &mut OwnerHand) {
    for _ in rt.forever() {
        let Some(Number(item)) = hand.owner.take(rt) else {
            return
        };
        let _ = hand.taken.push(item);
    }
}

fn queue_and_take<R: Wait>(rt: &R, ready: &Ready<Number>, hand: &mut OwnerHand)
    requires list { tag_of ready.now ≡ [] }
    requires owner { hand.old.owner.tag ≡ [] }
{
    queue_all(rt, ready, hand);
    take_all(rt, hand);
}

fn together<R: Threads + Wait + Sync>(rt: &R, ready: &Ready<Number>, hands: &mut [OwnerHand])
    requires list { tag_of ready.now ≡ [] }
    requires owners { All (λ hand. hand.owner.tag ≡ []) hands.old }
{
    for_each_mut(
        rt,
        hands,
        4,
        &|_, hand|
            requires { (tag_of ready.now ≡ []) × (hand.old.owner.tag ≡ []) }
        { queue_and_take(rt, ready, hand) },
    );
}

fn hands_of(alloc: Global, owners: &mut Vec<Owner<Number>>) -> Result<Vec<OwnerHand>, Fail>
    requires { All (λ owner. owner.tag ≡ []) owners.old.items }
    ensures { IfOk result (λ hands. All (λ hand. hand.owner.tag ≡ []) hands.items) }
{
    let mut hands = Vec::new(alloc);
    for from in [0u32, 250, 500, 750].iter() {
        let owner = next_owner(owners)?;
        add_hand(alloc, &mut hands, owner, *from)?;
    }
    Ok(hands)
}

fn add_hand(
    alloc: Global,
    hands: &mut Vec<OwnerHand>,
    owner: Owner<Number>,
    from: u32,
) -> Result<(), Fail>
    requires hands { All (λ hand. hand.owner.tag ≡ []) hands.old.items }
    requires owner { owner.tag ≡ [] }
    ensures { All (λ hand. hand.owner.tag ≡ []) hands.new.items }
{
    hands.push(OwnerHand {
        owner,
        from,
        taken: Vec::new(alloc),
    })?;
    Ok(())
}

#[test]
fn a_thousand_items_are_taken_once_each(rt: HostRuntime) -> Result<(), Fail> {
    let Shares { ready, mut owners } = Ready::<Number>::new(rt.alloc(), 4, &Number(0))?;
    let mut hands = hands_of(rt.alloc(), &mut owners)?;
    together(&rt, &ready, hands.as_mut_slice());
    let mut all = Vec::new(rt.alloc());
    for hand in hands.iter() {
        all.extend_from_slice(hand.taken.as_slice())?;
    }
    all.sort_unstable();
    assert!(rt; all.iter().copied().eq(0..1000));
    Ok(())
}
