// Feeds standard input to the answer call, and writes what it prints.
#![tactic(auto)]

use answer::call::answer;
use std::io;
use std::io::{Read, Write};

fn main(rt: HostRuntime) -> io::Result<()> {
    let mut text = Vec::new(rt.alloc());
    rt.stdin().read_to_end(&mut text)?;
    let mut out = [0u8; 512];
    if let Ok(length) = answer(&text, &mut out) {
        rt.stdout().write_all(&out[0..length])?;
    }
    Ok(())
}
