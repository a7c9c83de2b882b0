// Gives words of all kinds to name tables of several sizes, and prints what they answer:
// an atom, or number, place and layer of a refusal, or - for nothing.
#![tactic(auto)]

ghost use Rattle.std.specs.Prelude.{◌≡◌, ◌-◌, ◌/◌, ◌%◌, ◌<◌, [], ◌∷◌};

use clause::refusal::Refusal;
use names::name::Name;
use names::slot::NameSlot;
use names::table::NameTable;
use std::cmp::Ordering;
use std::io;
use std::io::Write;

// Lengths 0, 1, 16 and 17, bytes at both ends of the range and past them, alone and inside, and two names again.
const WORDS: [&[u8]; 14] = [
    b"",
    b"a",
    b"abcdefghijklmnop",
    b"abcdefghijklmnopq",
    b"\x20",
    b"\x21",
    b"\x7e",
    b"\x7f",
    b"\x80",
    b"a b",
    b"ab\x00",
    b"\xff!",
    b"a",
    b"abcdefghijklmnop",
];

// Names that arrive in another order than theirs.
const ARRIVALS: [&[u8]; 8] = [b"b", b"ab", b"a", b"~", b"ba", b"abc", b"B", b"!"];

// The same in their order.
const SORTED: [&[u8]; 8] = [b"!", b"B", b"a", b"ab", b"abc", b"b", b"ba", b"~"];

fn print_answer(rt: &HostRuntime, answer: Result<u8, Refusal>) -> io::Result<()> {
    match answer {
        Ok(atom) => print!(rt; " {atom}"),
        Err(refusal) => {
            let number = refusal.number();
            let place = refusal.place();
            let layer = refusal.layer();
            print!(rt; " {number}/{place}/{layer}")
        }
    }
}

// Prints what is there, or - for nothing. Each kind of answer is printed in a form of this program, not by `Display`: its stored output is compared.
fn print_or_dash<T, F: FnOnce(T) -> io::Result<()>>(
    rt: &HostRuntime,
    answer: Option<T>,
    print: F,
) -> io::Result<()>
    requires { F.IsAlwaysCallable print }
{
    match answer {
        Some(value) => print(value),
        None => print!(rt; " -"),
    }
}

fn print_atom(rt: &HostRuntime, atom: Option<u8>) -> io::Result<()> {
    print_or_dash(rt, atom, |atom| print!(rt; " {atom}"))
}

fn print_name(rt: &HostRuntime, name: Option<Name>) -> io::Result<()> {
    print_or_dash(rt, name, |name| {
        print!(rt; " ")?;
        rt.stdout().write_all(name.bytes())
    })
}

fn print_size(rt: &HostRuntime, table: &NameTable<'_>) -> io::Result<()> {
    let size = table.size();
    let places = table.places();
    println!(rt; "size {size} of {places}")
}

fn print_order(rt: &HostRuntime, a: &[u8], b: &[u8]) -> io::Result<()> {
    let Ok(a) = Name::try_from(a) else {
        return println!(rt; " ?");
    };
    let Ok(b) = Name::try_from(b) else {
        return println!(rt; " ?");
    };
    match a.compare(&b) {
        Ordering::Less => print!(rt; " <"),
        Ordering::Equal => print!(rt; " ="),
        Ordering::Greater => print!(rt; " >"),
    }
}

// Which words are names.
fn words(rt: &HostRuntime) -> io::Result<()> {
    let mut slots = [NameSlot::blank(); 8];
    let mut table = NameTable::new(&mut slots);
    print!(rt; "given")?;
    for word in WORDS {
        print_answer(rt, table.atom_of(word))?;
    }
    print!(rt; "\nfound")?;
    for word in WORDS {
        print_atom(rt, table.find(word))?;
    }
    println!(rt; "")?;
    print_size(rt, &table)
}

// Atoms by arrival, names by atoms, and the order by bytes: each name with each.
fn order(rt: &HostRuntime) -> io::Result<()> {
    let mut slots = [NameSlot::blank(); 8];
    let mut table = NameTable::new(&mut slots);
    print!(rt; "given")?;
    for word in ARRIVALS {
        print_answer(rt, table.atom_of(word))?;
    }
    print!(rt; "\nfound")?;
    for word in SORTED {
        print_atom(rt, table.find(word))?;
    }
    print!(rt; "\nnamed")?;
    for atom in 0..10 {
        print_name(rt, table.name_of(atom))?;
    }
    print_name(rt, table.name_of(64))?;
    print_name(rt, table.name_of(255))?;
    println!(rt; "")?;
    for a in SORTED {
        print!(rt; "order")?;
        for b in SORTED {
            print_order(rt, a, b)?;
        }
        println!(rt; "")?;
    }
    Ok(())
}

// One of 100 names, a later one before the earlier ones in the order.
fn word(i: u8) -> [u8; 2]
    requires { i < 100 }
    ensures { result ≡ (122 - i / 10) ∷ (57 - i % 10) ∷ [] }
{
    [b'z' - i / 10, b'9' - i % 10]
}

// A table filled to its last place and beyond, with a bad word and the same words again.
fn fill(rt: &HostRuntime, slots: &mut [NameSlot]) -> io::Result<()> {
    let mut table = NameTable::new(slots);
    print!(rt; "given")?;
    for i in 0..72 {
        print_answer(rt, table.atom_of(&word(i)))?;
    }
    println!(rt; "")?;
    print_size(rt, &table)?;
    print!(rt; "given")?;
    print_answer(rt, table.atom_of(b"no name"))?;
    for i in 60..72 {
        print_answer(rt, table.atom_of(&word(i)))?;
    }
    print!(rt; "\nfound")?;
    for i in 0..72 {
        print_atom(rt, table.find(&word(i)))?;
    }
    print!(rt; "\nnamed")?;
    for atom in 0..66 {
        print_name(rt, table.name_of(atom))?;
    }
    println!(rt; "")?;
    print_size(rt, &table)
}

fn main(rt: HostRuntime) -> io::Result<()> {
    words(&rt)?;
    order(&rt)?;
    let mut none: [NameSlot; 0] = [];
    let mut one = [NameSlot::blank(); 1];
    let mut most = [NameSlot::blank(); 64];
    let mut more = [NameSlot::blank(); 70];
    fill(&rt, &mut none)?;
    fill(&rt, &mut one)?;
    fill(&rt, &mut most)?;
    fill(&rt, &mut more)
}
