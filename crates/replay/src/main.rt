// Lists every case of the container on standard input, each under its name.
#![tactic(auto)]

mod container;

use container::first_case;
use lists::list::{MOVES, list};
use std::alloc::Global;
use std::io;
use std::io::{Read, Write};

fn replay<W: Write>(heap: Global, container: &[u8], out: &mut W) -> io::Result<()> {
    let mut rest = container;
    while !rest.is_empty() {
        let Some(case) = first_case(rest) else {
            return out.write_all(b"bad container\n");
        };
        out.write_all(b"== ")?;
        out.write_all(case.name)?;
        out.write_all(b"\n")?;
        list(heap, case.file, MOVES, out)?;
        rest = case.rest;
    }
    Ok(())
}

fn main(rt: HostRuntime) -> io::Result<()> {
    let heap = rt.alloc();
    let mut bytes = Vec::new(heap);
    let _ = rt.stdin().read_to_end(&mut bytes)?;
    let mut out = rt.stdout();
    replay(heap, &bytes, &mut out)
}
