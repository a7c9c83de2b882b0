// Reads a trace from standard input and prints whether it is sound, or the number and the place of its first fault.
#![tactic(auto)]

use std::io;
use std::io::Read;
use trace_check::judge::judge_trace;

// The longest trace has 393,264 bytes, so that one that fills these has a wrong trailer, and so has any longer one.
const MOST: u64 = 393_288;

fn main(rt: HostRuntime) -> io::Result<()> {
    let mut trace = Vec::new(rt.alloc());
    rt.stdin().take(MOST).read_to_end(&mut trace)?;
    match judge_trace(&trace) {
        Ok(()) => println!(rt; "sound"),
        // Not by the refusal's `Display`, which also names the layer: the output of this program stays as it was.
        Err(fault) => println!(rt; "refused {} at {}", fault.number(), fault.place()),
    }
}
