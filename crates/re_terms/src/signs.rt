//! The places of the signs in their list.

/// `;`
pub const SEMICOLON: u8 = 0;
/// `:`
pub const COLON: u8 = 1;
/// `=`
pub const EQUALS: u8 = 2;
/// `,`
pub const COMMA: u8 = 3;
/// `(`
pub const OPEN: u8 = 4;
/// `)`
pub const CLOSE: u8 = 5;
/// `+`
pub const PLUS: u8 = 6;
/// `-`
pub const MINUS: u8 = 7;
/// `*`
pub const TIMES: u8 = 8;
/// `/`
pub const DIVIDE: u8 = 9;
/// `%`
pub const REMAINDER: u8 = 10;
/// `<`
pub const LESS: u8 = 11;
/// `>`
pub const GREATER: u8 = 12;
/// `==`
pub const EQUAL: u8 = 13;
/// `!=`
pub const NOT_EQUAL: u8 = 14;
/// `<=`
pub const AT_MOST: u8 = 15;
/// `>=`
pub const AT_LEAST: u8 = 16;
