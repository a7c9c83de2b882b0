// One line of a trace: the words of its positive and of its negative atoms, and the numbers of its two antecedent lines, both 0 where it was given, as in the bytes.
#[derive(Clone, Copy, Debug, PartialEq, Eq)]
pub struct Line {
    pub positive: u64,
    pub negative: u64,
    pub first: u32,
    pub second: u32,
}

// What the trailer says: the count of atoms, the distance in bytes back to line 1, the number of the last line, and the count of given lines.
#[derive(Clone, Copy, Debug, PartialEq, Eq)]
pub struct Trailer {
    pub atoms: u32,
    pub distance: u32,
    pub last: u32,
    pub given: u32,
}

// The bytes that every trailer begins with.
pub const MARK: [u8; 4] = [0x42, 0x41, 0x43, 0x4B];
