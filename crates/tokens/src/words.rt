// The numbers of the fixed words, which a fresh name table holds in this order.
// Numbers and no enum: names come as numbers, and the project matches the directive words by range.
pub const ERROR: u32 = 0;

pub const LINE: u32 = 1;

pub const DEFINE: u32 = 2;

pub const UNDEF: u32 = 3;

pub const IF: u32 = 4;

pub const IFDEF: u32 = 5;

pub const IFNDEF: u32 = 6;

pub const ELIF: u32 = 7;

pub const ELSE: u32 = 8;

pub const ENDIF: u32 = 9;

pub const VERSION: u32 = 10;

pub const EXTENSION: u32 = 11;

pub const PRAGMA: u32 = 12;

pub const DEFINED: u32 = 13;

pub const LINE_MACRO: u32 = 14;
