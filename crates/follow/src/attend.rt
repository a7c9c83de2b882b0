ghost use Rattle.std.specs.Prelude.{◌≡◌, ℕ, ◌<◌, drop, IfOk, OnOk};
ghost use Rattle.reply.specs.Replies.{reply_of, spent};
ghost use Rattle.session.specs.Steps.{after};
ghost use Rattle.follow.specs.Sessions.{next, walked, performed, attended, until_open};

use clause::refusal::Refusal;
use notes::{NoSession, NotUnderstood};
use render::{counts_text, item_text};
use reply::answer::{Answer, is_spent};
use reply::calls::{add_clause, run_steps, show_valuation, walk_once};
use row_store::ordered::RowStore;
use row_store::slot::Slot;
use script::request::{Call, Request};
use script::text::Line;
use session::session::{Session, due_at_opening};
use std::io;
use store::store::ClauseStore;

// Prints an item after `items` others, and answers how many there are then. The count goes beside the runtime, in no struct with it: the contracts speak of the count alone.
fn print_item(
    rt: &HostRuntime,
    items: u64,
    call: &str,
    answer: Result<Answer, Refusal>,
) -> io::Result<u64>
    ensures { IfOk result (λ n. n ≡ next items) }
{
    let number = items.saturating_add(1);
    rt.println(item_text(rt.alloc(), number, call, answer)?)?;
    Ok(number)
}

fn print_counts<S: ClauseStore>(rt: &HostRuntime, session: &Session<'_, S>) -> io::Result<()> {
    rt.println(counts_text(
        rt.alloc(),
        &session.search(),
        session.size(),
        session.places(),
    )?)
}

// Printed without memory, as the next.
fn print_not_understood(rt: &HostRuntime, line: &Line) -> io::Result<()> {
    let note = NotUnderstood { line: line.number };
    println!(rt; "{note}")
}

fn print_no_session(rt: &HostRuntime, line: &Line) -> io::Result<()> {
    let note = NoSession { line: line.number };
    println!(rt; "{note}")
}

// At most `most` runs with budget 1, until one ends otherwise than by its budget.
fn walk<S: ClauseStore>(
    rt: &HostRuntime,
    session: &mut Session<'_, S>,
    items: u64,
    most: u32,
) -> io::Result<u64>
    ensures named { session.new.store.ghost_name ≡ session.old.store.ghost_name }
    ensures made { IfOk result (λ n. after (S.held session.new.store.now) session.new.search n ≡ walked most (S.held session.old.store.now) session.old.search items) }
{
    let mut items = items;
    for _ in 0..most {
        let answer = walk_once(session);
        items = print_item(rt, items, "run 1", answer)?;
        if !is_spent(answer) {
            return Ok(items);
        }
    }
    Ok(items)
}

// Performs a call and prints what it answered; how many items there are then.
fn perform<S: ClauseStore>(
    rt: &HostRuntime,
    session: &mut Session<'_, S>,
    items: u64,
    text: &str,
    call: &Call,
) -> io::Result<u64>
    ensures named { session.new.store.ghost_name ≡ session.old.store.ghost_name }
    ensures made { IfOk result (λ n. after (S.held session.new.store.now) session.new.search n ≡ performed (S.held session.old.store.now) session.old.search items call.now) }
{
    match call {
        Call::Add(literals) => print_item(rt, items, text, add_clause(session, literals)),
        Call::Run(budget) => print_item(rt, items, text, run_steps(session, *budget)),
        Call::Walk(most) => walk(rt, session, items, *most),
        Call::Show => print_item(rt, items, text, show_valuation(session)),
        Call::Counts => {
            print_counts(rt, session)?;
            Ok(items)
        }
    }
}

// Performs the lines up to the next that opens a session: the lines from that one on.
fn attend<'a, S: ClauseStore>(
    rt: &HostRuntime,
    lines: &'a [Line],
    session: &mut Session<'_, S>,
) -> io::Result<&'a [Line]>
    ensures next { IfOk result (λ r. r.now ≡ drop (until_open lines.now) lines.now) }
    ensures named { session.new.store.ghost_name ≡ session.old.store.ghost_name }
    ensures calls { OnOk result ((n : ℕ) × (after (S.held session.new.store.now) session.new.search n ≡ attended lines.now (S.held session.old.store.now) session.old.search 1)) }
{
    let mut items = 1;
    let mut rest = lines;
    while let Some((line, after)) = rest.split_first() {
        match &line.request {
            Some(Request::Open(_, _)) => return Ok(rest),
            Some(Request::Ask(call)) => items = perform(
                rt,
                session,
                items,
                line.call.as_str(),
                call,
            )?,
            None => print_not_understood(rt, line)?,
        }
        rest = after;
    }
    Ok(rest)
}

// Opens the session of the call over the store and performs the lines after it: the lines from the next that opens a session on.
fn follow_session<'a, S: ClauseStore>(
    rt: &HostRuntime,
    call: &str,
    lines: &'a [Line],
    atoms: u32,
    store: &mut S,
) -> io::Result<&'a [Line]>
    ensures { IfOk result (λ r. r.now ≡ drop (until_open lines.now) lines.now) }
{
    let opened = due_at_opening(atoms, store).map_or(Ok(Answer::Opened), |refusal| Err(refusal));
    let _ = print_item(rt, 0, call, opened)?;
    let mut session = Session::open(atoms, store);
    attend(rt, lines, &mut session)
}

// The same over a row of that many records.
fn over_row<'a>(
    rt: &HostRuntime,
    call: &str,
    lines: &'a [Line],
    atoms: u32,
    places: u32,
) -> io::Result<&'a [Line]>
    ensures { IfOk result (λ r. r.now ≡ drop (until_open lines.now) lines.now) }
{
    let heap = rt.alloc();
    let mut slots = vec![in heap; Slot::blank(); places as usize]?;
    let mut seats = vec![in heap; 0u16; places as usize]?;
    let mut store = RowStore::new(&mut slots, &mut seats);
    follow_session(rt, call, lines, atoms, &mut store)
}

// The whole script.
pub fn follow(rt: &HostRuntime, lines: &[Line]) -> io::Result<()> {
    let mut rest = lines;
    while let Some((line, after)) = rest.split_first() {
        rest = after;
        match &line.request {
            Some(Request::Open(atoms, places)) => rest = over_row(
                rt,
                line.call.as_str(),
                after,
                *atoms,
                *places,
            )?,
            Some(Request::Ask(_)) => print_no_session(rt, line)?,
            None => print_not_understood(rt, line)?,
        }
    }
    Ok(())
}
