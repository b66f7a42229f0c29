// The text of answers.
ghost use Rattle.std.specs.Prelude.{◌*◌, ◌≤◌, length};

use bincode::Refusal;
use std::alloc::AllocError;
use std::error::Error;
use std::fmt;

// Why a line is not answered with a value: it is no line of the form, its value is refused, or memory has run out.
#[derive(Debug, Drop)]
pub enum Failure {
    BadLine,
    Refused(Refusal),
    OutOfMemory,
}

impl fmt::Display for Failure {
    fn fmt<W: fmt::Write>(&self, f: &mut fmt::Formatter<W>) -> fmt::Result {
        match self {
            Failure::BadLine => write!(f, "bad line"),
            Failure::Refused(refusal) => write!(f, "refused {refusal}"),
            Failure::OutOfMemory => write!(f, "out of memory"),
        }
    }
}

impl Error for Failure {}

impl From<Refusal> for Failure {
    fn from(refusal: Refusal) -> Failure {
        Failure::Refused(refusal)
    }
}

impl From<AllocError> for Failure {
    fn from(_e: AllocError) -> Failure {
        Failure::OutOfMemory
    }
}

// How many bytes become digits at once.
const PIECE: usize = 256;

fn letter(d: u8) -> u8 {
    let x = d % 16;
    if x < 10 { b'0' + x } else { b'a' + (x - 10) }
}

// Puts the digits of bytes, two to a byte, into a buffer. The loop has no exit and goes by place, so that many are made at once.
fn write_digits(bytes: &[u8], digits: &mut [u8])
    requires { 2 * length bytes.now ≤ length digits.old }
{
    for i in 0..bytes.len() {
        digits[2 * i] = letter(bytes[i] / 16);
        digits[2 * i + 1] = letter(bytes[i]);
    }
}

// The first n bytes; all of them where there are fewer.
pub(crate) fn first(s: &[u8], n: usize) -> &[u8]
    ensures { length result.now ≤ n }
{
    s.get(..n).unwrap_or(s)
}

// Bytes as lowercase hexadecimal digits, two to a byte; `-` for none. Digits are made piece by piece, since printing them one by one takes several times as long; they are text, so
// there is no other case.
#[derive(Clone, Copy)]
pub struct Hex<'a>(pub &'a [u8]);

impl fmt::Display for Hex<'_> {
    fn fmt<W: fmt::Write>(&self, f: &mut fmt::Formatter<W>) -> fmt::Result {
        if self.0.is_empty() {
            return f.write_str("-");
        }
        for piece in self.0.chunks(PIECE) {
            let piece = first(piece, PIECE);
            let mut digits = [0u8; 2 * PIECE];
            write_digits(piece, &mut digits);
            if let Ok(text) = str::from_utf8(first(&digits, 2 * piece.len())) {
                f.write_str(text)?;
            }
        }
        Ok(())
    }
}
