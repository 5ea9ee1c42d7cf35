//! The places of the reserved words in their list.

pub const DEVICE: u8 = 0;

pub const SYMBOL: u8 = 1;

pub const VAR: u8 = 2;

pub const EVENT: u8 = 3;

pub const SIGNAL: u8 = 4;

pub const FOLD: u8 = 5;

pub const COUNTER: u8 = 6;

pub const SET: u8 = 7;

pub const REGISTER: u8 = 8;

pub const CHANGED: u8 = 9;

pub const MAP: u8 = 10;

pub const FILTER: u8 = 11;

pub const EITHER: u8 = 12;

pub const ON: u8 = 13;

pub const DO: u8 = 14;

pub const IN: u8 = 15;

pub const ARG: u8 = 16;

pub const SELF: u8 = 17;

pub const IF: u8 = 18;

pub const THEN: u8 = 19;

pub const ELSE: u8 = 20;

pub const AND: u8 = 21;

pub const OR: u8 = 22;

pub const NOT: u8 = 23;

pub const RECOVER: u8 = 24;

pub const FAULT: u8 = 25;

pub const SIZE: u8 = 26;

pub const HAS: u8 = 27;

pub const TRUE: u8 = 28;

pub const FALSE: u8 = 29;

pub const INT: u8 = 30;

pub const BOOL: u8 = 31;

pub const SYM: u8 = 32;
