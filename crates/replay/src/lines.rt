// Cuts standard input into lines and hands each to the replica's host.
ghost use Rattle.std.specs.Prelude.{◌≤◌};
ghost use Rattle.std.specs.Vec.{vec_len};

use crate::host::{Host, answer};
use crate::lent::Lists;
use crate::parse::parse;
use crate::text::{Failure, first};
use anyhow::Context;
use memchr::memchr;
use std::alloc::Global;
use std::io;
use std::io::{BufRead, BufReader, Read, Write};

// The greatest length of a line.
pub const MOST_LINE: usize = 140000;

// The bytes of the input that are read at once, at most.
pub const INPUT: usize = 65536;

// Takes what was read of a line, and answers whether it ends there; none at the end of the input. Of a line that is too long, just enough is kept to tell.
fn take_some(input: &mut impl BufRead, line: &mut Vec<u8>) -> io::Result<Option<bool>>
    requires { vec_len line.old ≤ 140001 }
    ensures { vec_len line.new ≤ 140001 }
{
    let held = input.fill_buf()?;
    if held.is_empty() {
        return Ok(None);
    }
    let end = memchr(b'\n', held);
    let n = end.unwrap_or(held.len());
    let room = (MOST_LINE + 1).saturating_sub(line.len());
    line.extend_from_slice(first(held, n.min(room)))?;
    input.consume(end.map_or(n, |k| k + 1));
    Ok(Some(end.is_some()))
}

// Reads the next line, without its line feed, and answers whether the input goes on behind it. A last line without a line feed is a line; where nothing was left, the line is empty and
// answers nothing. A proved loop has to end, so its turns are counted, to a number that no run uses up.
fn next_line(input: &mut impl BufRead, line: &mut Vec<u8>) -> io::Result<bool>
    ensures { vec_len line.new ≤ 140001 }
{
    line.clear();
    for _ in 0..u64::MAX {
        match take_some(input, line)? {
            Some(true) => return Ok(true),
            Some(false) => {}
            None => return Ok(false),
        }
    }
    Ok(false)
}

// The answer of a line; an empty one, or one that begins with `#`, answers nothing.
fn say(
    line: &[u8],
    host: &mut Option<Host>,
    lists: &mut Lists,
    out: &mut String,
) -> Result<(), Failure> {
    if line.is_empty() || line.starts_with(b"#") {
        return Ok(());
    }
    if MOST_LINE < line.len() {
        return Err(Failure::BadLine);
    }
    let call = parse(line, *out.allocator())?;
    answer(&call, host, lists, out)
}

// The text of the answer; only where memory has run out there is none.
fn tell(
    line: &[u8],
    host: &mut Option<Host>,
    lists: &mut Lists,
    out: &mut String,
) -> Result<(), Failure> {
    match say(line, host, lists, out) {
        Ok(()) => Ok(()),
        Err(Failure::OutOfMemory) => Err(Failure::OutOfMemory),
        Err(failure) => Ok(writeln!(out, "{failure}")?),
    }
}

// Reads to the end of the input, and no more once it has ended, with turns counted as above. An answer is written in one piece before the next line is read; where reading or writing fails, that is the program's
// error, and a line that was cut off there is not answered.
fn read_all(
    alloc: Global,
    source: impl Read + Drop,
    output: &mut impl Write,
    lists: &mut Lists,
) -> anyhow::Result<()> {
    let mut input = BufReader::with_capacity(alloc, INPUT, source)?;
    let mut line = Vec::new(alloc);
    let mut out = String::new(alloc);
    let mut host = None;
    for _ in 0..u64::MAX {
        let more = next_line(&mut input, &mut line).context("replay: standard input")?;
        out.clear();
        tell(&line, &mut host, lists, &mut out)?;
        output
            .write_all(out.as_bytes())
            .context("replay: standard output")?;
        if !more {
            return Ok(());
        }
    }
    Ok(())
}

// At the end, what no log expects, where a place of a lent list changed that had to keep what it held.
fn tell_kept(output: &mut impl Write, kept: bool) -> io::Result<()> {
    if kept {
        return Ok(());
    }
    output.write_all(b"lists changed\n")
}

// Reads all, with lists that hold the pattern. The lists are looked at also where reading or writing failed.
pub(crate) fn run(
    alloc: Global,
    source: impl Read + Drop,
    output: &mut impl Write,
) -> anyhow::Result<()> {
    let mut lists = Lists::new(alloc)?;
    let read = read_all(alloc, source, output, &mut lists);
    let told = tell_kept(output, lists.all_kept()).context("replay: standard output");
    read.and(told)
}
