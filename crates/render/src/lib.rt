// Items and counts as text. Kept functions, in place of `Display`: an item is three values that stand together nowhere else, the counts are of a search and of its store.
#![tactic(auto)]

ghost use Rattle.std.specs.Prelude.{◌≡◌, IfOk, string_bytes};
ghost use Rattle.reply.specs.Replies.{reply_of};
ghost use Rattle.render.specs.Texts.{item_text, counts_text};

use clause::refusal::Refusal;
use reply::answer::Answer;
use session::search::Search;
use std::alloc::{AllocError, Global};

// An item: its number, the call, and what it answered.
pub fn item_text(
    heap: Global,
    number: u64,
    call: &str,
    answer: Result<Answer, Refusal>,
) -> Result<String, AllocError>
    ensures { IfOk result (λ s. string_bytes s ≡ item_text number call.now (reply_of answer)) }
{
    match answer {
        Ok(answer) => format!(in heap; "{number}. {call}: {answer}"),
        Err(refusal) => format!(in heap; "{number}. {call}: {refusal}"),
    }
}

// What a session has counted, and the entries and places of its store.
pub fn counts_text(
    heap: Global,
    search: &Search,
    size: u16,
    places: u16,
) -> Result<String, AllocError>
    ensures { IfOk result (λ s. string_bytes s ≡ counts_text search.now size places) }
{
    let given = search.given;
    let derivations = search.made.derivations;
    let settings = search.made.settings;
    format!(in heap;
        "{given} given, {derivations} derivations, {settings} settings, {size} of {places} places"
    )
}
