// Keys, and the key of numbers.

/// What has a key: plain data that says where the value belongs. No code reads it.
pub trait Keyed {
    ghost Key: { Type 0 };

    ghost key: { Self → Self.Key };
}

// Numbers belong anywhere.

impl Keyed for u8 {
    ghost Key = { Unit {0} };

    ghost key = { λ _. tt };
}

impl Keyed for u16 {
    ghost Key = { Unit {0} };

    ghost key = { λ _. tt };
}

impl Keyed for u32 {
    ghost Key = { Unit {0} };

    ghost key = { λ _. tt };
}

impl Keyed for u64 {
    ghost Key = { Unit {0} };

    ghost key = { λ _. tt };
}

impl Keyed for usize {
    ghost Key = { Unit {0} };

    ghost key = { λ _. tt };
}
