ghost use Rattle.std.specs.Prelude.{◌≡◌, true, false};
ghost use Rattle.script.specs.Numbers.{number, digits, literal, signed};

// What lies beyond the range of a number is read as the largest.
const MOST: u32 = u32::MAX;

// A number has one digit at least.
pub fn number(word: &str) -> Option<u32>
    ensures { result ≡ number word.now }
{
    if word.is_empty() {
        return None;
    }
    capped(word.as_bytes())
}

// The number that the digits write; nothing where a byte is no digit.
fn capped(word: &[u8]) -> Option<u32>
    ensures { result ≡ digits word.now }
{
    digits::number::<MOST>(word)
}

// The negative literal of an atom, or the farthest from 0 where it is beyond.
fn negative(atom: u32) -> i32
    ensures { result ≡ signed true atom }
{
    0i32.saturating_sub_unsigned(atom)
}

// The positive literal of an atom, or the farthest from 0 where it is beyond.
fn positive(atom: u32) -> i32
    ensures { result ≡ signed false atom }
{
    0i32.saturating_add_unsigned(atom)
}

// A number that may have one minus before it.
pub fn literal(word: &str) -> Option<i32>
    ensures { result ≡ literal word.now }
{
    match word.strip_prefix('-') {
        Some(rest) => number(rest).map(negative),
        None => number(word).map(positive),
    }
}
