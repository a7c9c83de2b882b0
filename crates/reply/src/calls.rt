ghost use Rattle.std.specs.Prelude.{◌≡◌, ℕ, Bool};
ghost use Rattle.clause.specs.Refusals.{answer};
ghost use Rattle.session.specs.Calls.{add, run, shown};
ghost use Rattle.session.specs.Reports.{run_answer};
ghost use Rattle.session.specs.Steps.{after};
ghost use Rattle.reply.specs.Replies.{reply_of, add_reply, run_reply, show_reply, replied, stepped_once};

use crate::action::action_between;
use crate::answer::Answer;
use crate::valuation::Valuation;
use clause::refusal::Refusal;
use session::session::Session;
use store::store::ClauseStore;

// The clause of the literals, accepted or refused.
pub fn add_clause<S: ClauseStore>(
    session: &mut Session<'_, S>,
    literals: &[i32],
) -> Result<Answer, Refusal>
    ensures named { session.new.store.ghost_name ≡ session.old.store.ghost_name }
    ensures made { after (S.held session.new.store.now) session.new.search (reply_of result) ≡ replied add_reply (add (S.held session.old.store.now) session.old.search literals.now) }
{
    session.add(literals).map(|number| Answer::Entry(number))
}

// A run, told by its counts.
pub fn run_steps<S: ClauseStore>(
    session: &mut Session<'_, S>,
    budget: u32,
) -> Result<Answer, Refusal>
    ensures named { session.new.store.ghost_name ≡ session.old.store.ghost_name }
    ensures made { after (S.held session.new.store.now) session.new.search (reply_of result) ≡ replied run_reply (run (S.held session.old.store.now) session.old.search budget) }
{
    session.run(budget).map(|report| Answer::Ran(report))
}

// A run with budget 1, told by the step that it made.
pub fn walk_once<S: ClauseStore>(session: &mut Session<'_, S>) -> Result<Answer, Refusal>
    ensures named { session.new.store.ghost_name ≡ session.old.store.ghost_name }
    ensures made { after (S.held session.new.store.now) session.new.search (reply_of result) ≡ stepped_once (S.held session.old.store.now) session.old.search }
{
    let before = session.search();
    let report = session.run(1)?;
    let size = session.size();
    let last = session.entry(size);
    let action = action_between(&before, &session.search(), report.made, size, last);
    Ok(Answer::Stepped(action, report.outcome))
}

// The valuation under a satisfiable verdict.
pub fn show_valuation<S: ClauseStore>(session: &Session<'_, S>) -> Result<Answer, Refusal>
    ensures { reply_of result ≡ show_reply session.now.search.atoms (shown session.now.search) }
{
    let word = session.show()?;
    let atoms = session.search().atoms;
    Ok(Answer::Shown(Valuation { word, atoms }))
}
