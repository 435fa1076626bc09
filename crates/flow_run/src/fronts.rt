// The first items of a list, which are taken out of it for a while.
ghost use Rattle.std.specs.Prelude.{◌≡◌, ◌+◌, ◌++◌, ◌≤◌, [], length, vec_capacity};

/// Takes so many items off the front of a list. They come in the place of those that there is room for.
pub(crate) fn take_front<X>(items: &mut Vec<X>, count: usize, mut front: Vec<X>) -> Vec<X>
    requires empty { front.items ≡ [] }
    requires room { count ≤ vec_capacity front }
    requires enough { count ≤ length items.old.items }
    ensures items { result.items ++ items.new.items ≡ items.old.items }
    ensures count { length result.items ≡ count }
    ensures room { vec_capacity items.new ≡ vec_capacity items.old }
{
    while front.len() < count {
        front.push_reserved(items.remove(0));
    }
    front
}

/// Puts items back at the front of a list, which has room for them.
pub(crate) fn put_front<X: Drop>(items: &mut Vec<X>, mut front: Vec<X>)
    requires room { length front.items + length items.old.items ≤ vec_capacity items.old }
    ensures { items.new.items ≡ front.items ++ items.old.items }
{
    while let Some(item) = front.pop() {
        let Ok(()) = items.insert(0, item) else {
            unreachable!()
        };
    }
}
