// From a token's fields to the token, none where a field is out of range.
ghost use Rattle.std.specs.Prelude.{◌≡◌, ◌/◌, length};
ghost use Rattle.std.specs.Simd.{first_chunks};
ghost use Rattle.sources.specs.Fields.{value_of, decoded_token, tokens_of, Decoded};

use super::raw::Raw;
use std::alloc::Global;
use tokens::fault::Refusal;
use tokens::lexer::{LexerToken, LexerTokenValue};
use tokens::location::Location;
use tokens::punct::Punct;
use tokens::token::{Float, Integer};

fn value_of(raw: Raw, names: u32) -> Option<LexerTokenValue>
    ensures { result ≡ value_of names raw }
{
    let plain = raw.marks < 8 && raw.width == 0;
    // an enum of kinds would want a second match, since these numbers are read here alone
    match raw.kind {
        0 if plain && raw.value < names as u64 => Some(LexerTokenValue::Ident(raw.value as u32)),
        1 if raw.marks < 16 => Some(LexerTokenValue::Integer(Integer {
            value: raw.value,
            signed: raw.marks >= 8,
            width: raw.width,
        })),
        2 if raw.marks < 8 => Some(LexerTokenValue::Float(Float {
            bits: u32::try_from(raw.value).ok()?,
            width: raw.width,
        })),
        3 if plain => {
            let number = u8::try_from(raw.value).ok()?;
            let punct = Punct::try_from(number).ok()?;
            Some(LexerTokenValue::Punct(punct))
        }
        4 if plain && raw.value == 0 => Some(LexerTokenValue::Hash),
        5 if plain && raw.value == 0 => Some(LexerTokenValue::NewLine),
        _ => None,
    }
}

fn token_of(raw: Raw, names: u32) -> Option<LexerToken>
    ensures { result ≡ decoded_token names raw }
{
    let value = value_of(raw, names)?;
    Some(LexerToken {
        value,
        location: Location {
            start: raw.start,
            end: raw.end,
            line: raw.line,
        },
        leading_whitespace: raw.marks % 2 == 1,
        start_of_line: raw.marks / 2 % 2 == 1,
        had_comments: raw.marks / 4 % 2 == 1,
    })
}

// The tokens in these bytes, 24 bytes a token; a name is the place of its bytes in the file.
pub(crate) fn decode(heap: Global, bytes: &[u8], names: u32) -> Result<Vec<LexerToken>, Refusal>
    ensures { Decoded result (tokens_of names (first_chunks 24 (length bytes.now / 24) bytes.now)) }
{
    let (records, _) = bytes.as_chunks::<24>();
    let mut out = Vec::new(heap);
    for record in records {
        let token = token_of(Raw::from(*record), names).ok_or(Refusal::BadFile)?;
        out.push(token)?;
    }
    Ok(out)
}
