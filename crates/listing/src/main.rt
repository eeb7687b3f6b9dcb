// Lists what passes of the token file on standard input.
#![tactic(auto)]

use lists::list::{MOVES, list};
use std::io;
use std::io::Read;

// One byte more than a token file may have.
const ENOUGH: u64 = 65_537;

fn main(rt: HostRuntime) -> io::Result<()> {
    let heap = rt.alloc();
    let mut bytes = Vec::new(heap);
    let _ = rt.stdin().take(ENOUGH).read_to_end(&mut bytes)?;
    let mut out = rt.stdout();
    list(heap, &bytes, MOVES, &mut out)
}
