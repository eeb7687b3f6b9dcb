// The punctuation of GLSL.
ghost use Rattle.std.specs.Prelude.{◌≡◌, Some, Decides};
ghost use Rattle.tokens.specs.declared.punct.Punct.{Punct};
ghost use Rattle.tokens.specs.Puncts.{numbered, punct_known, spelled};

use std::fmt;

#[derive(Clone, Copy, PartialEq, Eq)]
pub enum Punct {
    AddAssign,
    SubAssign,
    MulAssign,
    DivAssign,
    ModAssign,
    LeftShiftAssign,
    RightShiftAssign,
    AndAssign,
    XorAssign,
    OrAssign,
    Increment,
    Decrement,
    LogicalAnd,
    LogicalOr,
    LogicalXor,
    LessEqual,
    GreaterEqual,
    EqualEqual,
    NotEqual,
    LeftShift,
    RightShift,
    LeftBrace,
    RightBrace,
    LeftParen,
    RightParen,
    LeftBracket,
    RightBracket,
    LeftAngle,
    RightAngle,
    Semicolon,
    Comma,
    Colon,
    Dot,
    Equal,
    Bang,
    Minus,
    Tilde,
    Plus,
    Star,
    Slash,
    Percent,
    Pipe,
    Caret,
    Ampersand,
    Question,
}

// Two puncts are equal exactly when they are the same.
pub fn punct_equality_stands()
    ensures { (a b : Punct) → Decides (⟦<Punct as PartialEq>⟧.eq a b) (a ≡ b) }
{}

// The place in the list above.
impl From<Punct> for u8 {
    ghost from_gives = { λ p n. n ≡ numbered p };

    fn from(p: Punct) -> u8 {
        p as u8
    }
}

// A number from 45 on.
#[derive(Clone, Copy, PartialEq, Eq)]
pub struct UnknownPunct {
    pub number: u8,
}

// A table, as 45 arms are too many for the search.
const PUNCTS: [Punct; 45] = [
    Punct::AddAssign,
    Punct::SubAssign,
    Punct::MulAssign,
    Punct::DivAssign,
    Punct::ModAssign,
    Punct::LeftShiftAssign,
    Punct::RightShiftAssign,
    Punct::AndAssign,
    Punct::XorAssign,
    Punct::OrAssign,
    Punct::Increment,
    Punct::Decrement,
    Punct::LogicalAnd,
    Punct::LogicalOr,
    Punct::LogicalXor,
    Punct::LessEqual,
    Punct::GreaterEqual,
    Punct::EqualEqual,
    Punct::NotEqual,
    Punct::LeftShift,
    Punct::RightShift,
    Punct::LeftBrace,
    Punct::RightBrace,
    Punct::LeftParen,
    Punct::RightParen,
    Punct::LeftBracket,
    Punct::RightBracket,
    Punct::LeftAngle,
    Punct::RightAngle,
    Punct::Semicolon,
    Punct::Comma,
    Punct::Colon,
    Punct::Dot,
    Punct::Equal,
    Punct::Bang,
    Punct::Minus,
    Punct::Tilde,
    Punct::Plus,
    Punct::Star,
    Punct::Slash,
    Punct::Percent,
    Punct::Pipe,
    Punct::Caret,
    Punct::Ampersand,
    Punct::Question,
];

// The punctuation at a place of the list; `get` was tried, and its goal stayed open.
impl TryFrom<u8> for Punct {
    type Error = UnknownPunct;

    ghost try_from_gives = { λ n r. r ≡ punct_known n };

    fn try_from(n: u8) -> Result<Punct, UnknownPunct> {
        if n < 45 {
            Ok(PUNCTS[n as usize])
        } else {
            Err(UnknownPunct { number: n })
        }
    }
}

impl Punct {
    // The table itself; `Display` writes it.
    pub fn spelling(self) -> &'static str
        ensures { result.now ≡ spelled self }
    {
        match self {
            Punct::AddAssign => "+=",
            Punct::SubAssign => "-=",
            Punct::MulAssign => "*=",
            Punct::DivAssign => "/=",
            Punct::ModAssign => "%=",
            Punct::LeftShiftAssign => "<<=",
            Punct::RightShiftAssign => ">>=",
            Punct::AndAssign => "&=",
            Punct::XorAssign => "^=",
            Punct::OrAssign => "|=",
            Punct::Increment => "++",
            Punct::Decrement => "--",
            Punct::LogicalAnd => "&&",
            Punct::LogicalOr => "||",
            Punct::LogicalXor => "^^",
            Punct::LessEqual => "<=",
            Punct::GreaterEqual => ">=",
            Punct::EqualEqual => "==",
            Punct::NotEqual => "!=",
            Punct::LeftShift => "<<",
            Punct::RightShift => ">>",
            Punct::LeftBrace => "{",
            Punct::RightBrace => "}",
            Punct::LeftParen => "(",
            Punct::RightParen => ")",
            Punct::LeftBracket => "[",
            Punct::RightBracket => "]",
            Punct::LeftAngle => "<",
            Punct::RightAngle => ">",
            Punct::Semicolon => ";",
            Punct::Comma => ",",
            Punct::Colon => ":",
            Punct::Dot => ".",
            Punct::Equal => "=",
            Punct::Bang => "!",
            Punct::Minus => "-",
            Punct::Tilde => "~",
            Punct::Plus => "+",
            Punct::Star => "*",
            Punct::Slash => "/",
            Punct::Percent => "%",
            Punct::Pipe => "|",
            Punct::Caret => "^",
            Punct::Ampersand => "&",
            Punct::Question => "?",
        }
    }
}

impl fmt::Display for Punct {
    ghost output = { λ p. Some (spelled p) };

    fn fmt<W: fmt::Write>(&self, f: &mut fmt::Formatter<W>) -> fmt::Result {
        f.write_str(self.spelling())
    }
}
