ghost use Rattle.std.specs.Prelude.{◌≡◌, length};
ghost use Rattle.store.specs.Held.{entry_at};

use crate::search::Search;
use crate::session::Session;
use store::entry::Entry;
use store::store::ClauseStore;

impl<'a, S: ClauseStore> Session<'a, S> {
    // What the session keeps beside its store.
    pub fn search(&self) -> Search
        ensures { result ≡ self.now.search }
    {
        self.search
    }

    // Entry k of the store, nothing outside 1 to its size.
    pub fn entry(&self, k: u16) -> Option<Entry>
        ensures { result ≡ entry_at (S.held self.now.store.now).entries k }
    {
        self.store.entry(k)
    }

    pub fn size(&self) -> u16
        ensures { result ≡ length (S.held self.now.store.now).entries }
    {
        self.store.size()
    }

    pub fn places(&self) -> u16
        ensures { result ≡ (S.held self.now.store.now).places }
    {
        self.store.places()
    }
}
