// Cuts standard input into lines and answers each.
ghost use Rattle.std.specs.Prelude.{◌≤◌};
ghost use Rattle.std.specs.Vec.{vec_len};

use crate::show::{LIMIT, answer};
use crate::text::first;
use anyhow::Context;
use std::alloc::Global;
use std::io;
use std::io::{BufRead, BufReader, Read, Write};

// The bytes that are read at once.
const CHUNK: usize = 65536;

// Takes what was read of a line, and answers whether it ends there; none at the end of the input. Of a line that is too long, just enough is kept to tell.
fn take_some(input: &mut impl BufRead, line: &mut Vec<u8>) -> io::Result<Option<bool>>
    requires { vec_len line.old ≤ 140001 }
    ensures { vec_len line.new ≤ 140001 }
{
    let held = input.fill_buf()?;
    if held.is_empty() {
        return Ok(None);
    }
    let end = held.iter().position(|b| *b == b'\n');
    let n = end.unwrap_or(held.len());
    let room = (LIMIT + 1).saturating_sub(line.len());
    line.extend_from_slice(first(held, n.min(room)))?;
    input.consume(end.map_or(n, |k| k + 1));
    Ok(Some(end.is_some()))
}

// Reads the next line, without its line feed, and answers whether the input goes on behind it. A last line without a line feed is a line; where nothing was left, the line is empty and
// answers nothing. A proved loop has to end, so its turns are counted, to a number that no run uses up.
fn next_line(input: &mut impl BufRead, line: &mut Vec<u8>) -> io::Result<bool>
    ensures { vec_len line.new ≤ 140001 }
{
    line.clear();
    for _ in 0..u64::MAX {
        match take_some(input, line)? {
            Some(true) => return Ok(true),
            Some(false) => {}
            None => return Ok(false),
        }
    }
    Ok(false)
}

// Reads to the end of the input, and no more once it has ended, with turns counted as above. An answer is written in one piece before the next line is read; where reading or writing
// fails, that is the program's error, and a line that was cut off there is not answered.
pub(crate) fn answer_all(
    alloc: Global,
    source: impl Read + Drop,
    output: &mut impl Write,
) -> anyhow::Result<()> {
    let mut input = BufReader::with_capacity(alloc, CHUNK, source)?;
    let mut line = Vec::new(alloc);
    let mut out = String::new(alloc);
    for _ in 0..u64::MAX {
        let more = next_line(&mut input, &mut line).context("decode: standard input")?;
        out.clear();
        answer(&line, &mut out)?;
        output
            .write_all(out.as_bytes())
            .context("decode: standard output")?;
        if !more {
            return Ok(());
        }
    }
    Ok(())
}
