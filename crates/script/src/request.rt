ghost use Rattle.std.specs.Prelude.{◌≡◌, map, IfOk, vec_items};
ghost use Rattle.std.specs.Option.{option_map};
ghost use Rattle.script.specs.Requests.{keyword, called, meant, lends, opens, adds, alone, nothing, literals, asks_for, asks};

use crate::number::{literal, number};
use std::alloc::{AllocError, Global};

// What a line of a script can ask for: a new session with so many atoms over so many records, or a call on the session.
#[derive(Drop)]
pub enum Request {
    Open(u32, u32),
    Ask(Call),
}

// The literals of a clause, a budget, or nothing besides.
#[derive(Drop)]
pub enum Call {
    Add(Vec<i32>),
    Run(u32),
    Walk(u32),
    Show,
    Counts,
}

// The first word of a request.
#[derive(Clone, Copy)]
enum Verb {
    Open,
    Add,
    Run,
    Walk,
    Show,
    Counts,
}

// Kept a function, in place of `FromStr`: what follows takes the verb as an option, so an error named here would be dropped at once.
fn verb_of(word: &str) -> Option<Verb>
    ensures { result ≡ keyword word.now }
{
    match word {
        "open" => Some(Verb::Open),
        "add" => Some(Verb::Add),
        "run" => Some(Verb::Run),
        "walk" => Some(Verb::Walk),
        "show" => Some(Verb::Show),
        "counts" => Some(Verb::Counts),
        _ => None,
    }
}

// A session with that many atoms over a row of that many records, at most 20,000.
fn lent(atoms: Option<u32>, places: Option<u32>) -> Option<Request>
    ensures { meant result ≡ lends atoms places }
{
    match (atoms, places) {
        (Some(n), Some(p)) if p <= 20_000 => Some(Request::Open(n, p)),
        _ => None,
    }
}

fn opening(rest: &[&str]) -> Option<Request>
    ensures { meant result ≡ opens (map (λ x. x.now) rest.now) }
{
    match rest {
        [atoms, places, store] if *store == "row" => lent(number(atoms), number(places)),
        _ => None,
    }
}

// The literals of the words, where all are literals. Kept `let .. else`: a word that is no literal is an answer here, and `?` hands on only a failed allocation.
fn read_literals(heap: Global, words: &[&str]) -> Result<Option<Vec<i32>>, AllocError>
    ensures { IfOk result (λ o. option_map vec_items o ≡ literals (map (λ x. x.now) words.now)) }
{
    let mut literals = Vec::new(heap);
    for w in words {
        let Some(l) = literal(w) else {
            return Ok(None);
        };
        literals.push(l)?;
    }
    Ok(Some(literals))
}

fn addition(heap: Global, rest: &[&str]) -> Result<Option<Request>, AllocError>
    ensures { IfOk result (λ q. meant q ≡ adds (map (λ x. x.now) rest.now)) }
{
    let literals = read_literals(heap, rest)?;
    Ok(literals.map(|literals| Request::Ask(Call::Add(literals))))
}

// The number that stands alone.
fn budget(rest: &[&str]) -> Option<u32>
    ensures { result ≡ alone (map (λ x. x.now) rest.now) }
{
    match rest {
        [word] => number(word),
        _ => None,
    }
}

// A call that is one word.
fn bare(call: Call, rest: &[&str]) -> Option<Request>
    ensures { meant result ≡ nothing (called call) (map (λ x. x.now) rest.now) }
{
    rest.is_empty().then_some(Request::Ask(call))
}

fn asked(heap: Global, verb: Option<Verb>, rest: &[&str]) -> Result<Option<Request>, AllocError>
    ensures { IfOk result (λ q. meant q ≡ asks_for verb (map (λ x. x.now) rest.now)) }
{
    match verb {
        Some(Verb::Open) => Ok(opening(rest)),
        Some(Verb::Add) => addition(heap, rest),
        Some(Verb::Run) => Ok(budget(rest).map(|b| Request::Ask(Call::Run(b)))),
        Some(Verb::Walk) => Ok(budget(rest).map(|b| Request::Ask(Call::Walk(b)))),
        Some(Verb::Show) => Ok(bare(Call::Show, rest)),
        Some(Verb::Counts) => Ok(bare(Call::Counts, rest)),
        None => Ok(None),
    }
}

// The request of a line's words, or nothing where they are none.
pub fn understood(heap: Global, words: &[&str]) -> Result<Option<Request>, AllocError>
    ensures { IfOk result (λ q. meant q ≡ asks (map (λ x. x.now) words.now)) }
{
    match words {
        [] => Ok(None),
        [first, rest @ ..] => asked(heap, verb_of(first), rest),
    }
}
