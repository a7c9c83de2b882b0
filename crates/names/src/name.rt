ghost use Rattle.std.specs.Prelude.{◌≡◌, ◌-◌, ◌≤◌, true, length, take, drop, replicate};
ghost use Rattle.names.specs.Bytes.{is_name};

// A name, 1 to 16 bytes from 21 to 7E hex: the first `len` of the bytes, and zeros behind them.
// A fixed buffer, since records are copied within lent slots and there is no heap.
// Names are ordered by their bytes, a shorter one before those that it begins; the bytes tell `len`, so the order leaves it out.
#[derive(Clone, Copy)]
#[derive_where(PartialEq, Eq, PartialOrd, Ord)]
pub struct Name {
    pub(crate) bytes: [u8; 16],
    #[derive_where(skip(EqHashOrd))]
    pub(crate) len: u8,
    ghost full: { length bytes ≡ 16 },
    ghost short: { len ≤ 16 },
    ghost good: { is_name (take len bytes) ≡ true },
    ghost padded: { drop len bytes ≡ replicate (16 - len) 0 },
}
