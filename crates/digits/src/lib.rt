// Numbers as decimal digits write them, up to a bound.
#![tactic(auto)]

ghost use Rattle.std.specs.Prelude.{◌≡◌};
ghost use Rattle.digits.specs.Digits.{reads, at_most};

// The number that the digits write, or `MOST` where it is larger; nothing where a byte is no digit. The empty slice writes 0.
pub fn number<const MOST: u32>(digits: &[u8]) -> Option<u32>
    ensures { result ≡ at_most MOST (reads 0 digits.now) }
{
    let mut n: u32 = 0;
    for b in digits {
        if !b.is_ascii_digit() {
            return None;
        }
        n = n
            .saturating_mul(10)
            .saturating_add(u32::from(*b - b'0'))
            .min(MOST);
    }
    Some(n)
}
