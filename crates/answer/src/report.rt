// The texts of refusals and of runs.
ghost use Rattle.std.specs.Prelude.{◌≡◌, ℕ, ◌+◌, ◌≤◌, [], ◌++◌, length};
ghost use Rattle.clause.specs.Refusals.{told};
ghost use Rattle.session.specs.Reports.{said};
ghost use Rattle.answer.specs.Answered.{percent, counted, valued, reported, faulted, status};
ghost use Rattle.answer.specs.Printed.{values_line};

use crate::text::Text;
use clause::refusal::Refusal;
use session::report::Outcome;
use session::session::Session;
use store::store::ClauseStore;

// 100 times size by places, rounded half up; 0 where there are no places.
pub(crate) fn percent_of(size: u16, places: u16) -> u64
    ensures { result ≡ percent size places }
{
    if places == 0 {
        return 0;
    }
    (200 * u64::from(size) + u64::from(places)) / (2 * u64::from(places))
}

// Why a text was refused: the refusal's number and place. Kept calls of `Text`, here and below, in place of `Display`: a formatter may fail, and an answer is printed whole.
pub(crate) fn put_refusal(text: &mut Text, refusal: Refusal)
    requires { text.old ≡ [] }
    ensures { text.new ≡ faulted (told refusal) }
{
    text.put(b"e");
    text.field(u64::from(refusal.number()));
    text.field(refusal.place() as u64);
    text.put(b"\n");
}

// The line of a verdict.
fn verdict(outcome: Outcome) -> &'static [u8]
    ensures is { result.now ≡ status (said outcome) }
    ensures bound { length result.now ≤ 16 }
{
    match outcome {
        Outcome::Satisfiable => b"s SATISFIABLE\n",
        Outcome::Unsatisfiable => b"s UNSATISFIABLE\n",
        Outcome::Stopped(_) => b"s UNKNOWN\n",
    }
}

// The line of a valuation.
fn put_values(text: &mut Text, atoms: u32, valuation: u64)
    requires { (length text.old ≤ 16) × (atoms ≤ 64) }
    ensures value { text.new ≡ text.old ++ values_line atoms valuation }
    ensures bound { length text.new ≤ length text.old + 260 }
{
    text.put(b"v");
    text.literals(atoms, valuation);
    text.put(b" 0\n");
}

// The line of counts: given entries, derivations, settings, and how full the store is.
fn put_counts<S: ClauseStore>(text: &mut Text, session: &Session<'_, S>)
    requires { length text.old ≤ 276 }
    ensures { text.new ≡ text.old ++ counted session.now.search (length (S.held session.now.store.now).entries) (S.held session.now.store.now).places }
{
    let search = session.search();
    text.put(b"r");
    text.field(u64::from(search.given));
    text.field(u64::from(search.made.derivations));
    text.field(u64::from(search.made.settings));
    text.field(percent_of(session.size(), session.places()));
    text.put(b"\n");
}

// How a run ended: the verdict, under satisfiable the valuation, and the counts.
pub(crate) fn put_report<S: ClauseStore>(
    text: &mut Text,
    session: &Session<'_, S>,
    atoms: u32,
    outcome: Outcome,
)
    requires { (atoms ≤ 64) × (text.old ≡ []) }
    ensures { text.new ≡ reported atoms session.now.search (said outcome) (length (S.held session.now.store.now).entries) (S.held session.now.store.now).places }
{
    text.put(verdict(outcome));
    if let Outcome::Satisfiable = outcome {
        put_values(text, atoms, session.search().valuation);
    }
    put_counts(text, session);
}
