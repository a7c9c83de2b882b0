// What to measure, from a line of input: STORE WORK ARRIVAL RANGE BUILT TIMES, as `row find scattered 1024 1024 512`.
use std::str::{FromStr, SplitWhitespace};

#[derive(Clone, Copy)]
pub enum Subject {
    Row,
    Skip,
    Plain,
}

#[derive(Clone, Copy)]
pub enum Work {
    // Find of a held clause, and of one that is not held.
    Find,
    Miss,
    // Put of a new clause.
    Put,
    // Least false, and least false where no clause is false.
    Least,
    Never,
}

// The order in which clauses arrive: scattered over their places, or the lowest, the highest, the next lowest, and so on.
#[derive(Clone, Copy)]
pub enum Arrival {
    Scattered,
    Alternating,
}

// The clauses are those of the first `range` places, a power of two; `built` of them are put first, and then the work is done `times` times.
#[derive(Clone, Copy)]
pub struct Task {
    pub subject: Subject,
    pub work: Work,
    pub arrival: Arrival,
    pub range: u32,
    pub built: u32,
    pub times: u32,
}

// A word that is missing, or none of those that stand at its place.
#[derive(Clone, Copy)]
pub struct NotUnderstood;

impl FromStr for Subject {
    type Err = NotUnderstood;

    fn from_str(word: &str) -> Result<Subject, NotUnderstood> {
        match word {
            "row" => Ok(Subject::Row),
            "skip" => Ok(Subject::Skip),
            "plain" => Ok(Subject::Plain),
            _ => Err(NotUnderstood),
        }
    }
}

impl FromStr for Work {
    type Err = NotUnderstood;

    fn from_str(word: &str) -> Result<Work, NotUnderstood> {
        match word {
            "find" => Ok(Work::Find),
            "miss" => Ok(Work::Miss),
            "put" => Ok(Work::Put),
            "least" => Ok(Work::Least),
            "never" => Ok(Work::Never),
            _ => Err(NotUnderstood),
        }
    }
}

impl FromStr for Arrival {
    type Err = NotUnderstood;

    fn from_str(word: &str) -> Result<Arrival, NotUnderstood> {
        match word {
            "scattered" => Ok(Arrival::Scattered),
            "alternating" => Ok(Arrival::Alternating),
            _ => Err(NotUnderstood),
        }
    }
}

// The next word, read.
fn next<T: FromStr>(words: &mut SplitWhitespace) -> Result<T, NotUnderstood>
where
    T::Err: Drop,
{
    let word = words.next().ok_or(NotUnderstood)?;
    word.parse::<T>().map_err(|_| NotUnderstood)
}

impl FromStr for Task {
    type Err = NotUnderstood;

    fn from_str(line: &str) -> Result<Task, NotUnderstood> {
        let mut words = line.split_whitespace();
        Ok(Task {
            subject: next(&mut words)?,
            work: next(&mut words)?,
            arrival: next(&mut words)?,
            range: next(&mut words)?,
            built: next(&mut words)?,
            times: next(&mut words)?,
        })
    }
}
