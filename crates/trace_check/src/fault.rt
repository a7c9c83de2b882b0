// What a check found wrong first: the trailer, or the line after those that it took.
#[derive(Clone, Copy, Debug, PartialEq, Eq)]
pub enum Fault {
    Trailer,
    Line,
}
