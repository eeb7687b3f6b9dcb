// The listing of one token file, line by line.
use crate::spelling::{fault_line, refusal_line, write_token};
use names::table::Names;
use preprocessor::state::Preprocessor;
use sources::file::TokenFile;
use sources::source::Source;
use std::alloc::{AllocError, Global};
use std::io;
use std::io::Write;
use tokens::fault::Refusal;

// What a program grants.
pub const MOVES: u64 = 1_000_000;

// Every token that passes, then the end or the fault; each line is written whole.
fn list_run<S: Source, W: Write>(
    heap: Global,
    names: &Names,
    run: &mut Preprocessor<S>,
    out: &mut W,
) -> io::Result<()> {
    let mut line = Vec::new(heap);
    loop {
        line.clear();
        match run.next() {
            Ok(Some(token)) => write_token(names, token, &mut line)?,
            Ok(None) => return out.write_all(b"end\n"),
            Err(fault) => return out.write_all(fault_line(heap, fault)?.as_bytes()),
        }
        out.write_all(&line)?;
    }
}

// Want of memory ends the listing with an error; every other refusal is a line.
fn list_refusal<W: Write>(heap: Global, refusal: Refusal, out: &mut W) -> io::Result<()> {
    match refusal {
        Refusal::Memory => Err(AllocError.into()),
        _ => out.write_all(refusal_line(heap, refusal)?.as_bytes()),
    }
}

// The names and the tokens of a file.
fn read(heap: Global, file: &[u8]) -> Result<(Names, TokenFile), Refusal> {
    let mut names = Names::new(heap)?;
    let source = TokenFile::read(heap, file, &mut names)?;
    Ok((names, source))
}

// The listing of a token file under a budget of moves.
pub fn list<W: Write>(heap: Global, file: &[u8], moves: u64, out: &mut W) -> io::Result<()> {
    match read(heap, file) {
        Ok((names, source)) => {
            let mut run = Preprocessor::new(heap, source, moves)?;
            list_run(heap, &names, &mut run, out)
        }
        Err(refusal) => list_refusal(heap, refusal, out),
    }
}
