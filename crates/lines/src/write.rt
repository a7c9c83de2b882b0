ghost use Rattle.std.specs.Prelude.{◌≡◌, ℕ, ◌+◌, ◌-◌, ◌*◌, ◌≤◌, true, length, take};
ghost use Rattle.clause.specs.Refusals.{answer};
ghost use Rattle.lines.specs.Bytes.{wrote};
ghost use Rattle.lines.specs.Format.{line_at, line_bytes, reaches, with_line, trailer_bytes, has_room, with_trailer, fitted, Ends};

use crate::line::{Line, MARK, Trailer};
use crate::read::has_line;
use clause::refusal::Refusal;

// Writes the bytes over those from `at` on.
fn put(out: &mut [u8], at: usize, bytes: &[u8])
    requires { at + length bytes.now ≤ length out.old }
    ensures { out.new ≡ wrote out.old at bytes.now }
{
    out[at..at + bytes.len()].copy_from_slice(bytes);
}

// The bytes that write a line.
fn line_bytes(line: Line) -> [u8; 24]
    ensures { result ≡ line_bytes line }
{
    let mut bytes = [0; 24];
    put(&mut bytes, 0, &line.positive.to_be_bytes());
    put(&mut bytes, 8, &line.negative.to_be_bytes());
    put(&mut bytes, 16, &line.first.to_be_bytes());
    put(&mut bytes, 20, &line.second.to_be_bytes());
    bytes
}

// The byte that line k begins at.
fn start_of(k: u32) -> usize
    requires { 1 ≤ k }
    ensures { result ≡ 24 * (k - 1) }
{
    24 * (k as usize - 1)
}

// Writes line k, from 1. Where the bytes do not reach so far nothing is altered.
pub fn put_line(out: &mut [u8], k: u32, line: Line) -> Result<(), Refusal>
    ensures said { answer result ≡ fitted (reaches out.old k) }
    ensures after { out.new ≡ with_line out.old k line }
    ensures back { reaches out.old k ≡ true → line_at out.new k ≡ line }
{
    if !has_line(out, k) {
        return Err(Refusal::TooShort);
    }
    put(out, start_of(k), &line_bytes(line));
    Ok(())
}

// The bytes that write a trailer.
fn trailer_bytes(trailer: Trailer) -> [u8; 24]
    ensures { result ≡ trailer_bytes trailer }
{
    let mut bytes = [0; 24];
    put(&mut bytes, 0, &MARK);
    put(&mut bytes, 4, &trailer.atoms.to_be_bytes());
    put(&mut bytes, 8, &trailer.distance.to_be_bytes());
    put(&mut bytes, 12, &trailer.last.to_be_bytes());
    put(&mut bytes, 16, &trailer.given.to_be_bytes());
    bytes
}

// Whether the bytes have place for a trailer at this distance from their start.
fn has_place(out: &[u8], distance: u32) -> bool
    ensures { result ≡ has_room out.now distance }
{
    distance as usize + 24 <= out.len()
}

// Writes the trailer as far behind line 1 as it says. Where it finds no room there nothing is altered.
pub fn put_trailer(out: &mut [u8], trailer: Trailer) -> Result<(), Refusal>
    ensures said { answer result ≡ fitted (has_room out.old trailer.distance) }
    ensures after { out.new ≡ with_trailer out.old trailer }
    ensures back { has_room out.old trailer.distance ≡ true → Ends (take (trailer.distance + 24) out.new) trailer }
{
    if !has_place(out, trailer.distance) {
        return Err(Refusal::TooShort);
    }
    put(out, trailer.distance as usize, &trailer_bytes(trailer));
    Ok(())
}
