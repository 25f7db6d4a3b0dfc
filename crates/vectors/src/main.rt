// Runs the records of the files that its arguments name against the engine, and prints what differs.
#![tactic(auto)]

mod buffers;
mod calls;
mod records;
mod tally;

ghost use Rattle.std.specs.Prelude.{◌≡◌, ◌≤◌, length, IfOk};

use crate::buffers::{Buffers, Lent, MOST};
use crate::calls::agrees;
use crate::records::Record;
use crate::tally::Tally;
use std::env::FillError;
use std::io::{Read, Write};
use std::rt::{Env, Files};
use std::{fs, io};

// The records of a text, one after another. What is no record ends it.
fn run(rt: &impl Print, path: &str, text: &[u8]) -> io::Result<()> {
    let mut older = [0; MOST];
    let mut newer = [0; MOST];
    let mut work = [0; MOST];
    let mut samples = [0; MOST];
    let mut table = [0; MOST];
    let mut buffers = Buffers {
        older: Lent::new(&mut older),
        newer: Lent::new(&mut newer),
        work: Lent::new(&mut work),
        samples: Lent::new(&mut samples),
        table: Lent::new(&mut table),
    };
    let mut tally = Tally::new(path);
    let mut last = None;
    for line in text.split_inclusive(|byte| *byte == b'\n') {
        tally.count_line();
        let Ok(record) = Record::try_from(line) else {
            last = None;
            break;
        };
        let is_met = agrees(&record, &mut buffers);
        tally.record(rt, record.opcode, is_met)?;
        last = Some(record.opcode);
    }
    tally.report(rt, last)
}

// Room for the longest file: a function of its own, so that no other proof writes so many zeros out.
fn room() -> [u8; 2097152]
    ensures { 2097152 ≡ length result }
{
    [0u8; 2097152]
}

// Reads until text is full or the file ends, and returns how many bytes it put at the start of text.
// A read gives as many bytes as it likes, so no iterator counts them, and std's `read_to_end` fills a Vec, which needs a heap.
fn read_full(file: &mut impl Read, text: &mut [u8]) -> io::Result<usize>
    ensures { IfOk result (λ n. n ≤ length text.new) }
{
    let mut done = 0;
    while done < text.len() {
        let n = file.read(&mut text[done..])?;
        if n == 0 {
            break;
        }
        done += n;
    }
    Ok(done)
}

fn run_file(rt: &impl Print, path: &str, file: &mut impl Read) -> io::Result<()> {
    let mut text = room();
    let n = read_full(file, &mut text)?;
    run(rt, path, &text[..n])
}

// The name goes out as bytes, text or not.
fn refuse(rt: &impl Print, path: &[u8]) -> io::Result<()> {
    io::writer(rt).write_all(path)?;
    println!(rt; ": cannot be opened")
}

fn run_path(rt: &(impl Files + Print), path: &str) -> io::Result<()> {
    match fs::open(rt, path) {
        Ok(mut file) => run_file(rt, path, &mut file),
        Err(_) => refuse(rt, path.as_bytes()),
    }
}

// A path is text: bytes that are none cannot be opened.
fn run_argument(rt: &(impl Files + Print), path: &[u8]) -> io::Result<()> {
    match str::from_utf8(path) {
        Ok(path) => run_path(rt, path),
        Err(_) => refuse(rt, path),
    }
}

// One argument after another, the program's name aside. The program ring_runs ends at a file that does not open.
// Of an argument that is longer than any path the bytes that fit are named.
fn main(rt: HostRuntime) -> io::Result<()> {
    let mut path = [0u8; 4096];
    for i in 1..usize::MAX {
        match rt.arg(i, &mut path) {
            Ok(n) => run_argument(&rt, &path[..n])?,
            Err(FillError::TooLong) => refuse(&rt, &path)?,
            Err(FillError::NotPresent) => break,
        }
    }
    Ok(())
}
