// Follows a script: reads requests from standard input and prints what each of them answered.
#![tactic(auto)]

mod attend;

use std::io;
use std::io::Read;

fn main(rt: HostRuntime) -> io::Result<()> {
    let heap = rt.alloc();
    let mut bytes = Vec::new(heap);
    rt.stdin().read_to_end(&mut bytes)?;
    let text = String::from_utf8_lossy(heap, &bytes)?;
    let lines = script::text::read_script(heap, text.as_str())?;
    attend::follow(&rt, &lines)
}
