// Pieces of a text.
ghost use Rattle.std.specs.Prelude.{◌≡◌, ◌<◌, ◌≤◌, ◌+◌, ◌-◌, ◌*◌, ◌^◌, ℕ};

use std::marker::Model;

/// Which piece of each line is meant.
#[derive(Clone, Copy)]
pub(crate) enum Piece {
    /// The line.
    Whole,
    /// What precedes the line's first space, or the whole line.
    Key,
}

/// A lead is made of so many bytes.
pub(crate) const LEAD_BYTES: usize = 6;

// How a sort key is held.
pub(crate) trait KeyForm: Copy + Drop {
    ghost held_lead: { Self → ℕ };

    ghost held_start: { Self → ℕ };

    ghost held_len: { Self → ℕ };

    // The greatest place and the greatest length that can be held.
    ghost most_start: { ℕ };

    ghost most_len: { ℕ };

    fn new(lead: u64, start: usize, len: usize) -> Self
        requires lead { lead < 2 ^ 48 }
        requires start { start ≤ most_start }
        requires len { len ≤ most_len }
        ensures lead { held_lead result ≡ lead }
        ensures start { held_start result ≡ start }
        ensures len { held_len result ≡ len };

    fn lead(self) -> u64
        ensures { result ≡ held_lead self };

    fn start(self) -> usize
        ensures { result ≡ held_start self };

    fn len(self) -> usize
        ensures { result ≡ held_len self };
}

// 12 bytes, for places below 4 GiB and lengths below 64 KiB. The lead is held in two parts: a number of eight bytes
// would make it 16.
#[derive(Clone, Copy)]
pub(crate) struct ShortKey {
    lead_front: u32,
    lead_back: u16,
    len: u16,
    start: u32,
}

impl KeyForm for ShortKey {
    ghost held_lead = { λ key. key.lead_front * 65536 + key.lead_back };

    ghost held_start = { λ key. key.start };

    ghost held_len = { λ key. key.len };

    ghost most_start = { 2 ^ 32 - 1 };

    ghost most_len = { 2 ^ 16 - 1 };

    #[inline]
    fn new(lead: u64, start: usize, len: usize) -> ShortKey {
        ShortKey {
            lead_front: (lead >> 16) as u32,
            lead_back: (lead & 0xffff) as u16,
            len: len as u16,
            start: start as u32,
        }
    }

    #[inline]
    fn lead(self) -> u64 {
        (u64::from(self.lead_front) << 16) + u64::from(self.lead_back)
    }

    #[inline]
    fn start(self) -> usize {
        self.start as usize
    }

    #[inline]
    fn len(self) -> usize {
        usize::from(self.len)
    }
}

// 24 bytes, for all places and lengths.
#[derive(Clone, Copy)]
pub(crate) struct LongKey {
    lead: u64,
    start: usize,
    len: usize,
}

impl KeyForm for LongKey {
    ghost held_lead = { λ key. key.lead };

    ghost held_start = { λ key. key.start };

    ghost held_len = { λ key. key.len };

    ghost most_start = { 2 ^ 64 - 1 };

    ghost most_len = { 2 ^ 64 - 1 };

    #[inline]
    fn new(lead: u64, start: usize, len: usize) -> LongKey {
        LongKey { lead, start, len }
    }

    #[inline]
    fn lead(self) -> u64 {
        self.lead
    }

    #[inline]
    fn start(self) -> usize {
        self.start
    }

    #[inline]
    fn len(self) -> usize {
        self.len
    }
}

// So many bytes of a text from a place on. Its lead is the number that the first six of them are, the first byte first,
// with zeros for those that aren't there: pieces whose leads differ compare as these do.
#[derive(Drop)]
pub(crate) struct SortKey<K: KeyForm> {
    key: K,
}

impl<K: KeyForm> Model for SortKey<K> {
    ghost use Rattle.text_ops.specs.inside.SortKeys.{SortKeyRow};

    ghost Value = { SortKeyRow };

    ghost view = { λ sort_key. record {
      lead = K.held_lead sort_key.key;
      start = K.held_start sort_key.key;
      len = K.held_len sort_key.key;
    } };
}

impl<K: KeyForm> SortKey<K> {
    ghost use Rattle.text_ops.specs.inside.SortKeys.{SortKeyRow};

    #[inline]
    pub(crate) fn new(lead: u64, start: usize, len: usize) -> SortKey<K>
        requires lead { lead < 2 ^ 48 }
        requires start { start ≤ K.most_start }
        requires len { len ≤ K.most_len }
        ensures { result ≡ record { lead = lead; start = start; len = len } }
    {
        SortKey {
            key: K::new(lead, start, len),
        }
    }

    #[inline]
    pub(crate) fn lead(&self) -> u64
        ensures { result ≡ self.now.lead }
    {
        self.key.lead()
    }

    #[inline]
    pub(crate) fn start(&self) -> usize
        ensures { result ≡ self.now.start }
    {
        self.key.start()
    }

    #[inline]
    pub(crate) fn len(&self) -> usize
        ensures { result ≡ self.now.len }
    {
        self.key.len()
    }
}
