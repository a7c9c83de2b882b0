// The answer call as hosts written in C call it. A library exports nothing: the static library `answer_c` does, under the same name.
ghost use Rattle.std.specs.Prelude.{◌≡◌, ℕ, ◌<◌, ◌≤◌, length, pos, negsuc};
ghost use Rattle.answer.specs.Answered.{answered};
ghost use Rattle.answer.specs.Printed.{wrote};

use crate::call::answer;

// The printed length, or minus the number of the refusal.
#[unsafe(no_mangle)]
pub extern "C" fn yurqobal_answer(text: &[u8], out: &mut [u8]) -> isize
    ensures short { length out.old < 512 → (result ≡ negsuc 11) × (out.new ≡ out.old) }
    ensures printed { 512 ≤ length out.old → (result ≡ pos (length (answered text.now))) × (out.new ≡ wrote out.old 0 (answered text.now)) }
{
    match answer(text, out) {
        Ok(n) => n as isize,
        Err(e) => -(e.number() as isize),
    }
}
