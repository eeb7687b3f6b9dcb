// Tokens, faults and refusals as lines of text.
ghost use Rattle.std.specs.Prelude.{◌≡◌, ◌++◌, IfOk, codes, string_bytes};
ghost use Rattle.tokens.specs.Faults.{fault_text, refusal_text};

use names::table::Names;
use std::alloc::{AllocError, Global};
use std::io;
use std::io::Write;
use tokens::fault::{Fault, Refusal};
use tokens::token::{Token, TokenValue};

// A name as it is, any other value as it is displayed.
fn write_value<W: Write>(names: &Names, value: TokenValue, out: &mut W) -> io::Result<()> {
    match value {
        TokenValue::Ident(name) => out.write_all(names.bytes_of(name).unwrap_or(&[])),
        TokenValue::Punct(p) => write!(out, "{p}"),
        TokenValue::Integer(i) => write!(out, "{i}"),
        TokenValue::Float(f) => write!(out, "{f}"),
        TokenValue::Version(v) => write!(out, "{v}"),
        TokenValue::Extension(e) => write!(out, "{e}"),
        TokenValue::Pragma(p) => write!(out, "{p}"),
    }
}

// The source line, a space, the spelling, a line end.
pub(crate) fn write_token<W: Write>(names: &Names, token: Token, out: &mut W) -> io::Result<()> {
    let line = token.location.line;
    write!(out, "{line} ")?;
    write_value(names, token.value, out)?;
    out.write_all(b"\n")
}

// The line of a token by itself.
pub fn token_line(heap: Global, names: &Names, token: Token) -> Result<Vec<u8>, AllocError> {
    let mut line = Vec::new(heap);
    // to a vector only want of memory can keep it from being written
    write_token(names, token, &mut line).map_err(|_| AllocError)?;
    Ok(line)
}

pub fn fault_line(heap: Global, fault: Fault) -> Result<String, AllocError>
    ensures { IfOk result (λ s. string_bytes s ≡ fault_text fault ++ codes "\n") }
{
    format!(in heap; "{fault}\n")
}

pub fn refusal_line(heap: Global, refusal: Refusal) -> Result<String, AllocError>
    ensures { IfOk result (λ s. string_bytes s ≡ refusal_text refusal ++ codes "\n") }
{
    format!(in heap; "{refusal}\n")
}

#[cfg(test)]
mod tests {
    use super::*;
    use tokens::fault::{Layer, PreprocessorError};
    use tokens::location::Location;

    // What no clause says: there is memory for each line, and a name is spelled by its bytes.
    #[test]
    fn lines(rt: HostRuntime) {
        let heap = rt.alloc();
        let location = Location {
            start: 1,
            end: 3,
            line: 7,
        };
        let Ok(names) = Names::new(heap) else {
            panic!(rt; "no memory");
        };
        let token = Token {
            value: TokenValue::Ident(4),
            location,
        };
        let Ok(line) = token_line(heap, &names, token) else {
            panic!(rt; "no memory");
        };
        assert_eq!(rt; line.as_slice(), b"7 if\n".as_slice());
        let fault = Fault::new(
            PreprocessorError::DefineRedefined,
            location,
            Layer::Directives,
        );
        let Ok(line) = fault_line(heap, fault) else {
            panic!(rt; "no memory");
        };
        assert_eq!(rt; line.as_str(), "fault 13 2 7\n");
        let Ok(line) = refusal_line(heap, Refusal::BadFile) else {
            panic!(rt; "no memory");
        };
        assert_eq!(rt; line.as_str(), "fault 41\n");
    }
}
