// When two token lists are the same up to where the tokens stand.
ghost use Rattle.std.specs.Prelude.{◌≡◌};
ghost use Rattle.defines.specs.Values.{values_agree, token_lists_agree};

use tokens::token::{Token, TokenValue};

// By hand, as a derived equality would call two passed directives equal. None stands in a body.
pub fn same_value(a: TokenValue, b: TokenValue) -> bool
    ensures { result ≡ values_agree a b }
{
    match (a, b) {
        (TokenValue::Ident(m), TokenValue::Ident(n)) => m == n,
        (TokenValue::Integer(x), TokenValue::Integer(y)) => x == y,
        (TokenValue::Float(x), TokenValue::Float(y)) => x == y,
        (TokenValue::Punct(p), TokenValue::Punct(q)) => p == q,
        _ => false,
    }
}

// By `same_value`, for the reason above.
pub fn same_tokens(a: &[Token], b: &[Token]) -> bool
    ensures { result ≡ token_lists_agree a.now b.now }
{
    a.len() == b.len() && a.iter().zip(b).all(|(x, y)| same_value(x.value, y.value))
}
