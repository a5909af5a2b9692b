// Replays recorded answers: for each file named as an argument, how many of its lines the library answers as the line says.
// A line is OPERATION ARG.. = ANSWER; what the library answers is written out and held against the line's own ANSWER.
#![tactic(auto)]

ghost use Rattle.std.specs.Prelude.{◌≤◌, length, IfSome};

use std::env::FillError;
use std::fs::File;
use std::io::{Error, ErrorKind, Read, Write};
use std::rt::Env;
use std::{io, str};

#[derive(Clone, Copy)]
struct Tally {
    lines: usize,
    agree: usize,
}

// What the library answers, put at the front of out; nothing where the operation is unknown.
fn answered(line: &[u8], a: &mut [u8], b: &mut [u8], out: &mut [u8]) -> Option<usize>
    ensures { IfSome result (λ n. n ≤ length out.new) }
{
    let op = notation::word(line, 0);
    if let Some(n) = answers_text::answer(op, line, a, b, out) {
        return Some(n);
    }
    if let Some(n) = answers_mhz::answer(op, line, a, out) {
        return Some(n);
    }
    if let Some(n) = answers_normalize::answer(op, line, a, b, out) {
        return Some(n);
    }
    if let Some(n) = answers_dedupe::answer(op, line, a, b, out) {
        return Some(n);
    }
    if let Some(n) = answers_reader::answer(op, line, a, out) {
        return Some(n);
    }
    answers_writer::answer(op, line, a, out)
}

// Whether the library answers as the line says.
fn agrees(line: &[u8]) -> bool {
    let mut a = [0u8; 1024];
    let mut b = [0u8; 1024];
    let mut out = [0u8; 1024];
    match answered(line, &mut a, &mut b, &mut out) {
        Some(n) => &out[..n] == notation::answer(line),
        None => false,
    }
}

// How many vectors there are, and how many agree.
fn count(s: &[u8]) -> Tally {
    let mut lines = 0;
    let mut agree = 0;
    let mut i = 0;
    while i < s.len() {
        let end = text::find(s, i, b'\n');
        let line = &s[i..end];
        lines += usize::from(text::byte(line, 0) != b'#');
        agree += usize::from(agrees(line));
        i = end + 1;
    }
    Tally { lines, agree }
}

// At most a hundred files, so that the loop is seen to end. A name of more than 256 bytes stands for none.
fn main(rt: HostRuntime) -> io::Result<()> {
    for i in 1..101 {
        let mut space = [0u8; 256];
        let n = match rt.arg(i, &mut space) {
            Ok(n) => n,
            Err(FillError::TooLong) => 0,
            Err(FillError::NotPresent) => return Ok(()),
        };
        replay(&rt, &space[..n])?;
    }
    Ok(())
}

fn open(rt: &HostRuntime, name: &[u8]) -> io::Result<File> {
    match str::from_utf8(name) {
        Ok(path) => File::open(rt, path),
        Err(_) => Err(Error::from(ErrorKind::InvalidInput)),
    }
}

// One file, at most 65,536 bytes. Of one that cannot be opened, only why.
fn replay(rt: &HostRuntime, name: &[u8]) -> io::Result<()> {
    let mut file = match open(rt, name) {
        Ok(file) => file,
        Err(error) => {
            rt.stderr().write_all(name)?;
            return eprintln!(rt; ": {error}");
        }
    };
    let mut buffer = [0u8; 65536];
    let size = read_full(&mut file, &mut buffer);
    let tally = count(&buffer[..size]);
    io::writer(rt).write_all(name)?;
    println!(rt; ": {} of {} agree", tally.agree, tally.lines)
}

// Reads until the buffer is full, the input ends or a read fails, and says how many bytes it put at the front.
fn read_full<R: Read>(input: &mut R, buffer: &mut [u8]) -> usize
    ensures { result ≤ length buffer.new }
{
    let mut done = 0;
    while done < buffer.len() {
        match input.read(&mut buffer[done..]) {
            Ok(n) if 0 < n => done += n,
            _ => break,
        }
    }
    done
}
