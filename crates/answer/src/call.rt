// The answer call over slices.
ghost use Rattle.std.specs.Prelude.{◌≡◌, ℕ, ◌<◌, ◌≤◌, [], length, MatchResult, nat_lt};
ghost use Rattle.clause.specs.Refusals.{told, refused};
ghost use Rattle.session.specs.Calls.{run, opened, load};
ghost use Rattle.answer.specs.Answered.{answered, faulted, ran, loaded, vacant};
ghost use Rattle.answer.specs.Printed.{wrote};

use crate::report::{put_refusal, put_report};
use crate::text::Text;
use clause::refusal::Refusal;
use dimacs::check::check;
use row_store::ordered::RowStore;
use row_store::slot::Slot;
use session::session::Session;
use store::store::ClauseStore;

// Decides the clauses of a text and prints the verdict into the buffer: the printed length, or a refusal where the buffer is shorter than 512 bytes.
pub fn answer(text: &[u8], out: &mut [u8]) -> Result<usize, Refusal>
    ensures short { length out.old < 512 → MatchResult result (λ _. ⊥) (λ e. (told e ≡ refused 12 0) × (out.new ≡ out.old)) }
    ensures printed { 512 ≤ length out.old → MatchResult result (λ n. (n ≡ length (answered text.now)) × (n ≤ 512) × (out.new ≡ wrote out.old 0 (answered text.now))) (λ _. ⊥) }
{
    if out.len() < 512 {
        return Err(Refusal::TooShort);
    }
    Ok(print_answer(text, out))
}

fn print_answer(text: &[u8], out: &mut [u8]) -> usize
    requires { 512 ≤ length out.old }
    ensures place { result ≡ length (answered text.now) }
    ensures after { out.new ≡ wrote out.old 0 (answered text.now) }
    ensures bound { result ≤ 512 }
{
    let mut answer = Text::new();
    if let Err(e) = decide(text, &mut answer) {
        put_refusal(&mut answer, e);
    }
    let bytes = answer.as_bytes();
    out[..bytes.len()].copy_from_slice(bytes);
    bytes.len()
}

// Puts down how the text is decided, or says why it is refused.
fn decide(text: &[u8], answer: &mut Text) -> Result<(), Refusal>
    requires { answer.old ≡ [] }
    ensures { MatchResult result (λ _. answer.new ≡ answered text.now) (λ e. (answer.new ≡ []) × (faulted (told e) ≡ answered text.now)) }
{
    if is_too_large(text.len()) {
        return Err(Refusal::TooLarge);
    }
    let heading = check(text, 64)?;
    decide_checked(text, heading.atoms, answer)
}

// Opens a session with so many atoms over 1,024 local places, loads the text and runs. The bound on the atoms is asked of each function that prints them: a session
// holds any count, and its opening refuses one above 64.
fn decide_checked(text: &[u8], atoms: u32, answer: &mut Text) -> Result<(), Refusal>
    requires { (atoms ≤ 64) × (answer.old ≡ []) }
    ensures { MatchResult result (λ _. answer.new ≡ loaded atoms (load vacant (opened atoms vacant) text.now)) (λ e. (answer.new ≡ []) × (faulted (told e) ≡ loaded atoms (load vacant (opened atoms vacant) text.now))) }
{
    let mut slots = [Slot::blank(); 1024];
    let mut seats = [0u16; 1024];
    let mut store = RowStore::new(&mut slots, &mut seats);
    let mut session = Session::open(atoms, &mut store);
    session.load(text)?;
    run_loaded(&mut session, atoms, answer)
}

// Runs, and tells how the run ended.
fn run_loaded<S: ClauseStore>(
    session: &mut Session<'_, S>,
    atoms: u32,
    answer: &mut Text,
) -> Result<(), Refusal>
    requires { (atoms ≤ 64) × (answer.old ≡ []) }
    ensures { MatchResult result (λ _. answer.new ≡ ran atoms (run (S.held session.old.store.now) session.old.search 2000000)) (λ e. (answer.new ≡ []) × (faulted (told e) ≡ ran atoms (run (S.held session.old.store.now) session.old.search 2000000))) }
{
    let report = session.run(2_000_000)?;
    put_report(answer, session, atoms, report.outcome);
    Ok(())
}

// Whether a text of so many bytes is refused unread.
fn is_too_large(bytes: usize) -> bool
    ensures { result ≡ nat_lt 32768 bytes }
{
    bytes > 32_768
}
