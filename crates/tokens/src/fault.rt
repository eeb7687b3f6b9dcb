// Faults: what went wrong, where, and which layer found it.
ghost use Rattle.std.specs.Prelude.{◌≡◌, Some};
ghost use Rattle.tokens.specs.Faults.{number, layered, refused, lexical, raised, unexpected, ended, closed, starved, fault_text, refusal_text};

use crate::lexer::{Closing, LexerError};
use crate::location::Location;
use crate::token::{Token, TokenValue};
use std::alloc::{AllocError, AllocFailed};
use std::fmt;

#[derive(Clone, Copy)]
pub enum PreprocessorError {
    IntegerOverflow,
    FloatParsingError,
    UnexpectedCharacter,
    UnexpectedToken(TokenValue),
    UnexpectedHash,
    UnexpectedNewLine,
    UnexpectedEndOfInput,
    TooFewDefineArguments,
    TooManyDefineArguments,
    ErrorDirective,
    DuplicateParameter,
    UnknownDirective,
    DefineRedefined,
    ElifOutsideOfBlock,
    ElseOutsideOfBlock,
    EndifOutsideOfBlock,
    ElifAfterElse,
    MoreThanOneElse,
    UnfinishedBlock,
    LineOverflow,
    NotSupported16BitLiteral,
    NotSupported64BitLiteral,
    MacroNotDefined,
    RecursionLimitReached,
    DivisionByZero,
    // the limits
    TooManyDefines,
    TooManyParameters,
    KeptTokensFull,
    WorkingTokensFull,
    TooManyBlocks,
    TooManyLevels,
    ConditionTooDeep,
    MovesSpent,
}

#[derive(Clone, Copy, PartialEq, Eq)]
pub enum Layer {
    Source = 1,
    Directives,
    Conditions,
    Expansion,
}

// `directive` is the place of the word `if`, `elif` or `line` in whose directive the fault was raised.
#[derive(Clone, Copy)]
pub struct Fault {
    pub error: PreprocessorError,
    pub location: Location,
    pub layer: Layer,
    pub directive: Option<Location>,
}

// How a step ends that answers nothing.
#[derive(Clone, Copy)]
pub enum StepExit {
    Error(Fault),
    Continue,
    Finished,
}

pub type Step<T> = Result<T, StepExit>;

// Refusals outside a run: a name's length, a full name table, a bad token file, want of memory.
#[derive(Clone, Copy, PartialEq, Eq)]
pub enum Refusal {
    Memory,
    NameLength = 31,
    NamesFull,
    BadFile = 41,
}

// One error carries a token, so these numbers are no discriminants.
impl PreprocessorError {
    pub fn number(self) -> u32
        ensures { result ≡ number self }
    {
        match self {
            PreprocessorError::IntegerOverflow => 1,
            PreprocessorError::FloatParsingError => 2,
            PreprocessorError::UnexpectedCharacter => 3,
            PreprocessorError::UnexpectedToken(_) => 4,
            PreprocessorError::UnexpectedHash => 5,
            PreprocessorError::UnexpectedNewLine => 6,
            PreprocessorError::UnexpectedEndOfInput => 7,
            PreprocessorError::TooFewDefineArguments => 8,
            PreprocessorError::TooManyDefineArguments => 9,
            PreprocessorError::ErrorDirective => 10,
            PreprocessorError::DuplicateParameter => 11,
            PreprocessorError::UnknownDirective => 12,
            PreprocessorError::DefineRedefined => 13,
            PreprocessorError::ElifOutsideOfBlock => 14,
            PreprocessorError::ElseOutsideOfBlock => 15,
            PreprocessorError::EndifOutsideOfBlock => 16,
            PreprocessorError::ElifAfterElse => 17,
            PreprocessorError::MoreThanOneElse => 18,
            PreprocessorError::UnfinishedBlock => 19,
            PreprocessorError::LineOverflow => 20,
            PreprocessorError::NotSupported16BitLiteral => 21,
            PreprocessorError::NotSupported64BitLiteral => 22,
            PreprocessorError::MacroNotDefined => 23,
            PreprocessorError::RecursionLimitReached => 24,
            PreprocessorError::DivisionByZero => 25,
            PreprocessorError::TooManyDefines => 33,
            PreprocessorError::TooManyParameters => 34,
            PreprocessorError::KeptTokensFull => 35,
            PreprocessorError::WorkingTokensFull => 36,
            PreprocessorError::TooManyBlocks => 37,
            PreprocessorError::TooManyLevels => 38,
            PreprocessorError::ConditionTooDeep => 39,
            PreprocessorError::MovesSpent => 40,
        }
    }
}

// The numbers follow the order of the variants.
impl Layer {
    pub fn number(self) -> u32
        ensures { result ≡ layered self }
    {
        self as u32
    }
}

impl Refusal {
    // Want of memory has no number of its own.
    pub fn number(self) -> u32
        ensures { result ≡ refused self }
    {
        self as u32
    }
}

impl Fault {
    pub fn new(error: PreprocessorError, location: Location, layer: Layer) -> Fault
        ensures { result ≡ raised layer error location }
    {
        Fault {
            error,
            location,
            layer,
            directive: None,
        }
    }

    // A token that must not stand where it does.
    pub fn unexpected(token: Token, layer: Layer) -> Fault
        ensures { result ≡ unexpected layer token }
    {
        Fault::new(
            PreprocessorError::UnexpectedToken(token.value),
            token.location,
            layer,
        )
    }
}

impl From<Fault> for StepExit {
    ghost from_gives = { λ f exit. exit ≡ ended f };

    fn from(fault: Fault) -> StepExit {
        StepExit::Error(fault)
    }
}

// The same error, as a run raises it.
impl From<LexerError> for PreprocessorError {
    ghost from_gives = { λ e error. error ≡ lexical e };

    fn from(error: LexerError) -> PreprocessorError {
        match error {
            LexerError::IntegerOverflow => PreprocessorError::IntegerOverflow,
            LexerError::FloatParsingError => PreprocessorError::FloatParsingError,
            LexerError::UnexpectedCharacter => PreprocessorError::UnexpectedCharacter,
            LexerError::NotSupported16BitLiteral => PreprocessorError::NotSupported16BitLiteral,
            LexerError::NotSupported64BitLiteral => PreprocessorError::NotSupported64BitLiteral,
        }
    }
}

// How a source that is read to its closing ends a step.
impl From<Closing> for StepExit {
    ghost from_gives = { λ c exit. exit ≡ closed c };

    fn from(closing: Closing) -> StepExit {
        match closing {
            Closing::End => StepExit::Finished,
            Closing::Fault(error, location) => Fault::new(
                error.into(),
                location,
                Layer::Source,
            ).into(),
        }
    }
}

impl From<AllocError> for Refusal {
    ghost from_gives = { λ _ refusal. refusal ≡ starved };

    fn from(_error: AllocError) -> Refusal {
        Refusal::Memory
    }
}

impl<T: Drop> From<AllocFailed<T>> for Refusal {
    ghost from_gives = { λ _ refusal. refusal ≡ starved };

    fn from(failed: AllocFailed<T>) -> Refusal {
        AllocError::from(failed).into()
    }
}

// The number, the layer and the line.
impl fmt::Display for Fault {
    ghost output = { λ f. Some (fault_text f) };

    fn fmt<W: fmt::Write>(&self, f: &mut fmt::Formatter<W>) -> fmt::Result {
        let number = self.error.number();
        let layer = self.layer.number();
        let line = self.location.line;
        write!(f, "fault {number} {layer} {line}")
    }
}

impl fmt::Display for Refusal {
    ghost output = { λ r. Some (refusal_text r) };

    fn fmt<W: fmt::Write>(&self, f: &mut fmt::Formatter<W>) -> fmt::Result {
        let number = self.number();
        write!(f, "fault {number}")
    }
}
