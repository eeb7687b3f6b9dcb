// The operators of a condition: their levels, and what they make of signed 64-bit values.
#![tactic(auto)]

ghost use Rattle.std.specs.Prelude.{◌≡◌};
ghost use Rattle.operators.specs.Calc.{operator_level, place, calc, sign_in, signed};

use tokens::fault::PreprocessorError;
use tokens::punct::Punct;
use tokens::token::TokenValue;

#[derive(Clone, Copy)]
pub enum Sign {
    Plus,
    Minus,
    Not,
    Complement,
}

// The levels of the binary operators, the tightest first.
#[derive(Clone, Copy, PartialEq, Eq, PartialOrd, Ord)]
pub enum Level {
    Multiplicative = 1,
    Additive,
    Shift,
    Comparative,
    Equality,
    BitAnd,
    BitXor,
    BitOr,
    LogicalAnd,
    LogicalOr,
}

// What is no binary operator has no level.
pub fn level_of(p: Punct) -> Option<Level>
    ensures { result ≡ operator_level p }
{
    Some(match p {
        Punct::Star | Punct::Slash | Punct::Percent => Level::Multiplicative,
        Punct::Plus | Punct::Minus => Level::Additive,
        Punct::LeftShift | Punct::RightShift => Level::Shift,
        Punct::LeftAngle | Punct::RightAngle | Punct::LessEqual | Punct::GreaterEqual => {
            Level::Comparative
        }
        Punct::EqualEqual | Punct::NotEqual => Level::Equality,
        Punct::Ampersand => Level::BitAnd,
        Punct::Caret => Level::BitXor,
        Punct::Pipe => Level::BitOr,
        Punct::LogicalAnd => Level::LogicalAnd,
        Punct::LogicalOr => Level::LogicalOr,
        _ => return None,
    })
}

// The number of an operator's level: from 1 for the tightest to 10 for the loosest, and 0 for what is no binary operator.
pub fn level_number(p: Punct) -> u8
    ensures { result ≡ place (operator_level p) }
{
    match level_of(p) {
        Some(level) => level as u8,
        None => 0,
    }
}

// Both sides are worked out before, also of `&&` and `||`. A shift goes by 0 to 63 places. What is no binary operator answers its right side.
pub fn apply(p: Punct, a: i64, b: i64) -> Result<i64, PreprocessorError>
    ensures { result ≡ calc p a b }
{
    match p {
        Punct::Star => a.checked_mul(b).ok_or(PreprocessorError::IntegerOverflow),
        Punct::Slash => a.checked_div(b).ok_or(PreprocessorError::DivisionByZero),
        Punct::Percent => a.checked_rem(b).ok_or(PreprocessorError::DivisionByZero),
        Punct::Plus => a.checked_add(b).ok_or(PreprocessorError::IntegerOverflow),
        Punct::Minus => a.checked_sub(b).ok_or(PreprocessorError::IntegerOverflow),
        Punct::LeftShift => u32::try_from(b)
            .ok()
            .and_then(|n| a.checked_shl(n))
            .ok_or(PreprocessorError::IntegerOverflow),
        Punct::RightShift => u32::try_from(b)
            .ok()
            .and_then(|n| a.checked_shr(n))
            .ok_or(PreprocessorError::IntegerOverflow),
        Punct::LeftAngle => Ok(i64::from(a < b)),
        Punct::RightAngle => Ok(i64::from(a > b)),
        Punct::LessEqual => Ok(i64::from(a <= b)),
        Punct::GreaterEqual => Ok(i64::from(a >= b)),
        Punct::EqualEqual => Ok(i64::from(a == b)),
        Punct::NotEqual => Ok(i64::from(a != b)),
        Punct::Ampersand => Ok(a & b),
        Punct::Caret => Ok(a ^ b),
        Punct::Pipe => Ok(a | b),
        Punct::LogicalAnd => Ok(i64::from(a != 0 && b != 0)),
        Punct::LogicalOr => Ok(i64::from(a != 0 || b != 0)),
        _ => Ok(b),
    }
}

// The unary operator that a value is, if it is one.
pub fn sign_of(v: TokenValue) -> Option<Sign>
    ensures { result ≡ sign_in v }
{
    match v {
        TokenValue::Punct(Punct::Plus) => Some(Sign::Plus),
        TokenValue::Punct(Punct::Minus) => Some(Sign::Minus),
        TokenValue::Punct(Punct::Bang) => Some(Sign::Not),
        TokenValue::Punct(Punct::Tilde) => Some(Sign::Complement),
        _ => None,
    }
}

pub fn apply_sign(s: Sign, v: i64) -> Result<i64, PreprocessorError>
    ensures { result ≡ signed s v }
{
    match s {
        Sign::Plus => Ok(v),
        Sign::Minus => v.checked_neg().ok_or(PreprocessorError::IntegerOverflow),
        Sign::Not => Ok(i64::from(v == 0)),
        Sign::Complement => Ok(!v),
    }
}
