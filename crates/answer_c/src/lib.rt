// The static library for hosts written in C: its one export is the answer call.
#![tactic(auto)]

ghost use Rattle.std.specs.Prelude.{◌≡◌, ◌<◌, ◌≤◌, length, pos, negsuc};
ghost use Rattle.answer.specs.Answered.{answered};
ghost use Rattle.answer.specs.Printed.{wrote};

// The printed length, or minus the number of the refusal.
#[unsafe(no_mangle)]
pub extern "C" fn yurqobal_answer(text: &[u8], out: &mut [u8]) -> isize
    ensures short { length out.old < 512 → (result ≡ negsuc 11) × (out.new ≡ out.old) }
    ensures printed { 512 ≤ length out.old → (result ≡ pos (length (answered text.now))) × (out.new ≡ wrote out.old 0 (answered text.now)) }
{
    answer::host::yurqobal_answer(text, out)
}
