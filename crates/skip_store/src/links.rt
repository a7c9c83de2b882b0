ghost use Rattle.std.specs.Prelude.{◌≡◌, ◌+◌, ◌-◌, ◌*◌, ◌<◌, ◌≤◌, length, replicate};
ghost use Rattle.std.specs.Int.Count.{count_trailing_zeros};
ghost use Rattle.skip_store.specs.Links.{On, seat, link, Joins, Earlier, head_after, links_after};

// How many levels there are: the numbers of entries, 16,384 at most, end in fewer than 15 zero bits.
pub(crate) const LEVELS: usize = 15;

// The link of each entry, and of the head, on each of its levels: the number of the entry that follows there, 0 where none does.
// They are plain numbers with 0 for none, since the caller lends the memory, two bytes a link. That an entry is on a level, and that its links lie in the lent
// memory, is asked at each call: it ties the number to the level and to the slice.
#[derive(Drop)]
pub struct Links<'a> {
    pub(crate) head: [u16; LEVELS],
    pub(crate) lent: &'a mut [u16],
}

// On how many levels entry k is linked: one more than its number has zero bits at its low end.
fn levels(k: u16) -> usize
    requires { (0 < k) × (k ≤ 16384) }
    ensures value { result ≡ count_trailing_zeros 16 k + 1 }
    ensures within { result ≤ 15 }
{
    k.trailing_zeros() as usize + 1
}

// Where the link of entry j on level l lies. As j is a multiple q of 2^l, this is one less than the odd number 2q - 1 times 2^l:
// every number is such a product in one way, so no two links meet, and those of the entries up to j lie below 2j.
fn seat(j: u16, level: usize) -> usize
    requires entry { 0 < j }
    requires level { (level < 15) × (On level j) }
    ensures value { result ≡ seat j level }
    ensures below { result < 2 * j }
{
    2 * j as usize - (1 << level) - 1
}

impl<'a> Links<'a> {
    // The links of a list without entries.
    pub(crate) fn new(lent: &'a mut [u16]) -> Links<'a>
        ensures head { result.head ≡ replicate 15 0 }
        ensures same { result.lent.now ≡ lent.old }
        ensures lender { result.lent.ghost_name ≡ lent.entry.ghost_name }
    {
        Links {
            head: [0; LEVELS],
            lent,
        }
    }

    // The link of entry j, or of the head for 0, on a level.
    pub(crate) fn of(&self, j: u16, level: usize) -> u16
        requires room { 2 * j ≤ length self.now.lent.now }
        requires level { (level < 15) × (On level j) }
        ensures { result ≡ link self.now.head self.now.lent.now j level }
    {
        if j == 0 {
            self.head[level]
        } else {
            self.lent[seat(j, level)]
        }
    }

    // Lets the link of entry j, or of the head for 0, lead to entry k.
    fn set(&mut self, j: u16, level: usize, k: u16)
        requires room { 2 * j ≤ length self.old.lent.now }
        requires level { (level < 15) × (On level j) }
        ensures head { self.new.head ≡ head_after self.old.head j level k }
        ensures lent { self.new.lent.now ≡ links_after self.old.lent.now j level k }
        ensures lender { self.new.lent.ghost_name ≡ self.old.lent.ghost_name }
    {
        if j == 0 {
            self.head[level] = k;
        } else {
            let at = seat(j, level);
            self.lent[at] = k;
        }
    }

    // Joins entry k in after its predecessors, on each of its levels.
    pub(crate) fn join(&mut self, k: u16, before: &[u16; LEVELS])
        requires number { (0 < k) × (k ≤ 16384) }
        requires room { 2 * k ≤ length self.old.lent.now }
        requires before { Earlier before.now k }
        ensures joins { Joins self.old.head self.old.lent.now self.new.head self.new.lent.now before.now k (count_trailing_zeros 16 k + 1) }
        ensures lender { self.new.lent.ghost_name ≡ self.old.lent.ghost_name }
    {
        for (level, prev) in before[..levels(k)].iter().enumerate() {
            let next = self.of(*prev, level);
            self.set(k, level, next);
            self.set(*prev, level, k);
        }
    }
}
