// What can be parked.
ghost use Rattle.std.specs.Prelude.{ℕ};

/// What can be parked. No code reads where it belongs.
pub trait Parkable {
    /// What the items of one yard belong to.
    type Home;

    /// The item is of this home, and waits for a unit of the semaphore with this number.
    ghost waits_at: { Self → Self.Home → ℕ → Type 0 };
}
