// The fields of a line: words, numbers and bytes, with one space between two of them.
ghost use Rattle.std.specs.Prelude.{◌*◌, ◌≤◌, length};

use crate::text::Failure;
use memchr::memchr;
use std::alloc::Global;

// The greatest length that a line can name for what is lent.
pub const MOST_PLACES: usize = 2000;

// What is left of a line behind the fields that were taken; nothing behind the last of them.
#[derive(Clone, Copy)]
pub struct Fields<'a> {
    rest: Option<&'a [u8]>,
}

impl<'a> Fields<'a> {
    pub(crate) fn new(line: &'a [u8]) -> Fields<'a> {
        Fields { rest: Some(line) }
    }

    // The next field.
    fn field(&mut self) -> Result<&'a [u8], Failure> {
        let Some(rest) = self.rest else {
            return Err(Failure::BadLine);
        };
        let Some(n) = memchr(b' ', rest) else {
            self.rest = None;
            return Ok(rest);
        };
        let (field, more) = rest.split_at(n);
        self.rest = more.get(1..);
        Ok(field)
    }

    pub(crate) fn word(&mut self) -> Result<&'a str, Failure> {
        str::from_utf8(self.field()?).map_err(|_| Failure::BadLine)
    }

    // Decimal digits, one to twenty, of a number that fits.
    pub(crate) fn number(&mut self) -> Result<u64, Failure> {
        let digits = self.word()?;
        if 20 < digits.len() || digits.starts_with('+') {
            return Err(Failure::BadLine);
        }
        digits.parse::<u64>().map_err(|_| Failure::BadLine)
    }

    pub(crate) fn id(&mut self) -> Result<u32, Failure> {
        u32::try_from(self.number()?).map_err(|_| Failure::BadLine)
    }

    // A length that is lent.
    pub(crate) fn places(&mut self) -> Result<usize, Failure> {
        match self.number()? as usize {
            n @ 0..=MOST_PLACES => Ok(n),
            _ => Err(Failure::BadLine),
        }
    }

    pub(crate) fn flag(&mut self) -> Result<bool, Failure> {
        match self.number()? {
            0 => Ok(false),
            1 => Ok(true),
            _ => Err(Failure::BadLine),
        }
    }

    pub(crate) fn bytes(&mut self, alloc: Global) -> Result<Vec<u8>, Failure> {
        unhex(alloc, self.field()?)
    }

    // Nothing may be left.
    pub(crate) fn end(self) -> Result<(), Failure> {
        match self.rest {
            Some(_) => Err(Failure::BadLine),
            None => Ok(()),
        }
    }
}

// What a hexadecimal digit stands for, and 16 where a byte is none.
fn digit_of(b: u8) -> u8 {
    match b {
        b'0'..=b'9' => b - b'0',
        b'a'..=b'f' => b - b'a' + 10,
        _ => 16,
    }
}

// Puts the bytes of pairs of digits into a buffer; the answer is below 16 where all were digits. The loop has no exit and goes by place, so that many digits are read at once:
// pair by pair takes ten times as long.
fn read_digits(digits: &[u8], bytes: &mut [u8]) -> u8
    requires { 2 * length bytes.old ≤ length digits.now }
{
    let mut seen = 0u8;
    for i in 0..bytes.len() {
        let high = digit_of(digits[2 * i]);
        let low = digit_of(digits[2 * i + 1]);
        seen = seen | high | low;
        bytes[i] = high % 16 * 16 + low % 16;
    }
    seen
}

// The bytes that lowercase hexadecimal digits stand for; `-` is no bytes.
fn unhex(alloc: Global, digits: &[u8]) -> Result<Vec<u8>, Failure> {
    if digits == b"-".as_slice() {
        return Ok(Vec::new(alloc));
    }
    if digits.is_empty() || digits.len() % 2 == 1 {
        return Err(Failure::BadLine);
    }
    let mut bytes = vec![in alloc; 0u8; digits.len() / 2]?;
    if 15 < read_digits(digits, &mut bytes) {
        return Err(Failure::BadLine);
    }
    Ok(bytes)
}
