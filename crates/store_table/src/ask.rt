ghost use Rattle.std.specs.Prelude.{◌≡◌};
ghost use Rattle.store_table.specs.Answers.{clause_in, finds_in, puts_in, leaves_in, answered, afterwards};

use crate::request::{Answer, Request, Words};
use store::entry::Entry;
use store::store::ClauseStore;

fn find<S: ClauseStore>(store: &S, words: &Words) -> Answer
    ensures { result ≡ finds_in (S.held store.now) (clause_in words.now) }
{
    words
        .clause()
        .map_or(Answer::NoClause, |clause| store.find(&clause).into())
}

// Kept `let .. else`: a closure would have to borrow the store that it alters.
fn put<S: ClauseStore>(store: &mut S, words: &Words, first: u16, second: u16) -> Answer
    ensures answers { result ≡ puts_in (S.held store.old) (clause_in words.now) first second }
    ensures after { S.held store.new ≡ leaves_in (S.held store.old) (clause_in words.now) first second }
{
    let Some(clause) = words.clause() else {
        return Answer::NoClause;
    };
    store.put(Entry::derived(clause, first, second)).into()
}

// What the store answers to the request.
pub fn ask<S: ClauseStore>(store: &mut S, request: &Request) -> Answer
    ensures answers { result ≡ answered (S.held store.old) request.now }
    ensures after { S.held store.new ≡ afterwards (S.held store.old) request.now }
{
    match request {
        Request::Size => Answer::Count(store.size()),
        Request::Places => Answer::Count(store.places()),
        Request::Entry(number) => store.entry(*number).into(),
        Request::Find(words) => find(store, words),
        Request::Put(words) => put(store, words, 0, 0),
        Request::Derive(words, first, second) => put(store, words, *first, *second),
        Request::LeastFalse(valuation) => store.least_false(*valuation).into(),
    }
}
