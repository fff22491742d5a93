// The text lines: the residue of a record, or why a file is refused. A line is spelled in a small buffer first, so that
// making it takes no memory and cannot fail.
ghost use Rattle.std.specs.Prelude.{◌≡◌, ◌+◌, ◌≤◌, ◌++◌, Some, decimal};
ghost use Rattle.arrayvec.specs.ArrayString.{array_string_len};
ghost use Rattle.line.specs.Lines.{line_bytes};
ghost use Rattle.line.specs.Output.{PutOut};

use crate::put::put_out;
use arithmetic::Refusal;
use arrayvec::ArrayString;
use itoa::Buffer;
use std::fmt;
use theory::Kind;

// What one line tells.
#[derive(Clone, Copy, PartialEq, Eq, Debug)]
pub enum Line {
    // the residue of the index by the modulus, and the kind of run that gave it
    Residue {
        index: u32,
        modulus: u32,
        residue: u32,
        kind: Kind,
    },
    // the number of a fault and its record; numbers and no fault, as a line is put out from whatever numbers it is given
    Refused {
        number: u8,
        record: u32,
    },
}

// Three numbers of ten digits, each with a blank, "doubling" and the line feed.
const LONGEST: usize = 42;

pub fn put_line(output: &mut [u8], line: Line) -> Result<usize, Refusal>
    ensures puts { PutOut (line_bytes line) output.old output.new result }
{
    put_out(output, spell(line).as_str().as_bytes())
}

// The text of a line.
fn spell(line: Line) -> ArrayString<LONGEST>
    ensures text { result.bytes ≡ line_bytes line }
{
    let mut text = ArrayString::new();
    match line {
        Line::Residue {
            index,
            modulus,
            residue,
            kind,
        } => {
            push_number(&mut text, index);
            text.push_str(" ");
            push_number(&mut text, modulus);
            text.push_str(" ");
            push_number(&mut text, residue);
            text.push_str(" ");
            text.push_str(kind.name());
        }
        Line::Refused { number, record } => {
            text.push_str("refused ");
            push_number(&mut text, number as u32);
            text.push_str(" record ");
            push_number(&mut text, record);
        }
    }
    text.push_str("\n");
    text
}

// Puts a number behind the text.
fn push_number(text: &mut ArrayString<LONGEST>, n: u32)
    requires { array_string_len text.old + 10 ≤ 42 }
    ensures bytes { text.new.bytes ≡ text.old.bytes ++ decimal n }
    ensures length { array_string_len text.new ≤ array_string_len text.old + 10 }
{
    text.push_str(Buffer::new().format(n));
}

impl fmt::Display for Line {
    ghost output = { λ line. Some (line_bytes line) };

    fn fmt<W: fmt::Write>(&self, f: &mut fmt::Formatter<W>) -> fmt::Result {
        f.write_str(spell(*self).as_str())
    }
}
