// The numbers and the literals of a text.
ghost use Rattle.std.specs.Prelude.{◌≡◌};
ghost use Rattle.dimacs.specs.Numbers.{numeral, capped, literal};

// One more than any number that a heading or a literal may hold; it stands for all above it.
const CAP: u32 = 16_385;

// The number of a word that is 0, or digits without a leading zero.
pub(crate) fn number(word: &[u8]) -> Option<u32>
    ensures { result ≡ capped (numeral word.now) }
{
    match word {
        [] => None,
        [b'0'] => Some(0),
        [b'0', ..] => None,
        _ => digits::number::<CAP>(word),
    }
}

// The literal that a word writes, 0 where it ends a clause, or nothing where it is malformed; there is no negative 0.
pub(crate) fn read_literal(word: &[u8]) -> Option<i32>
    ensures { result ≡ literal word.now }
{
    match word {
        [b'-', digits @ ..] => number(digits).filter(|n| *n != 0).map(|n| -(n as i32)),
        _ => number(word).map(|n| n as i32),
    }
}
