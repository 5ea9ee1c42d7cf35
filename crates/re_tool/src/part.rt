//! Reads the program part of an input.
ghost use Rattle.std.specs.Prelude.{◌≡◌, ◌++◌, ◌∷◌, [], OnOk};
ghost use Rattle.re_tool.specs.Clipped.{clipped};
ghost use Rattle.re_tool.specs.Lines.{ended, without_return};
ghost use Rattle.re_tool.specs.Part.{is_separator};
ghost use Rattle.re_tool.specs.PartReading.{PartGives};

use crate::line::ClippedLine;
use crate::reader::{Halt, Next, Reader};
use re_outside::Outside;
use std::alloc::{AllocError, Global};

/// One byte more than a program part may have.
const TEXT_KEPT: usize = 65537;

/// One byte more than the text that is kept, so that a line is never cut where the text isn't.
const LINE_KEPT: usize = 65538;

const CR: u8 = 13;

/// The program part, as far as it is kept.
#[derive(Drop)]
pub struct PartText {
    pub text: ClippedLine,
    /// Whether a separator ended it, and lines may follow.
    pub is_divided: bool,
}

/// Why the program part could not be read.
#[derive(Clone, Copy, Debug, PartialEq, Eq)]
pub enum Stop {
    Memory,
    Input,
    TooLong,
}

/// A whole line without the one CR before its LF.
pub fn trim_return(line: &[u8]) -> &[u8]
    ensures { result.now ≡ without_return line.now }
{
    if !line.is_empty() && line[line.len() - 1] == CR {
        return &line[..line.len() - 1];
    }
    line
}

/// Whether a line ends the program part.
fn ends_part(line: &[u8]) -> bool
    ensures { result ≡ is_separator line.now }
{
    line == b"---".as_slice()
}

/// Puts a whole line behind the text. The one refusal is want of memory.
fn append_line(text: &mut ClippedLine, line: &[u8]) -> Result<(), AllocError>
    ensures { OnOk result (text.new ≡ clipped text.old.most (text.old.items ++ ended line.now)) }
{
    text.append(line)?;
    text.push(b'\n')
}

/// Reads lines up to the separator, or to the end of the input.
pub fn read_part<O: Outside>(
    alloc: Global,
    reader: &mut Reader,
    out: &mut O,
) -> Result<PartText, Stop>
    requires start { reader.old ≡ record { chunk = []; taken = 0 } }
    ensures { PartGives reader.new (O.seen out.old) (O.seen out.new) result }
{
    let mut text = ClippedLine::new(alloc, TEXT_KEPT);
    let mut line = ClippedLine::new(alloc, LINE_KEPT);
    'lines: loop {
        match reader.next(&mut line, out) {
            Err(Halt::Memory) => return Err(Stop::Memory),
            Err(Halt::Input) => return Err(Stop::Input),
            Ok(Next::TooLong) => return Err(Stop::TooLong),
            Ok(Next::End) => {
                if ends_part(line.bytes()) {
                    return Ok(PartText {
                        text,
                        is_divided: false,
                    });
                }
                let Ok(()) = text.append(line.bytes()) else {
                    return Err(Stop::Memory);
                };
                return Ok(PartText {
                    text,
                    is_divided: false,
                });
            }
            Ok(Next::Line) => {
                if ends_part(trim_return(line.bytes())) {
                    return Ok(PartText {
                        text,
                        is_divided: true,
                    });
                }
                let Ok(()) = append_line(&mut text, line.bytes()) else {
                    return Err(Stop::Memory);
                };
            }
        }
    }
}
