ghost use Rattle.std.specs.Prelude.{◌≡◌, ◌<◌, length, map};
ghost use Rattle.row_store.specs.Seats.{Seated, MakesWay, moved};

// Kept the whole slice with a size: the clause says of the whole that what lies past the seats in use stays.
// Moves the first `size` seats from `at` on up by one, and seats the next entry there.
pub(crate) fn make_way(seats: &mut [u16], size: usize, at: u16)
    requires room { size < length seats.old }
    requires few { size < 16384 }
    requires seated { Seated seats.old size }
    ensures { MakesWay seats.old size at seats.new }
{
    for seat in &mut seats[..size] {
        *seat = moved(*seat, at);
    }
    seats[size] = at;
}

// A seat after a record was put in at the position `at`.
fn moved(seat: u16, at: u16) -> u16
    requires { seat < 16384 }
    ensures { result ≡ moved at seat }
{
    if at <= seat { seat + 1 } else { seat }
}
