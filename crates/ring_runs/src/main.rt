// Stored runs of `ring`: for each file that an argument names, its name, and what `ring` prints for it.
#![tactic(auto)]

use ring_shell::print_answer;
use std::env::FillError;
use std::fs::File;
use std::io::Write;
use std::rt::Env;
use std::{io, str};

// Whether the file opens; one that does not is named on standard error.
fn run(rt: &HostRuntime, path: &str) -> io::Result<bool> {
    match File::open(rt, path) {
        Ok(mut file) => {
            println!(rt; "{path}")?;
            print_answer(&mut file, &mut rt.stdout())?;
            Ok(true)
        }
        Err(e) => {
            eprintln!(rt; "{path}: {e}")?;
            Ok(false)
        }
    }
}

// A path is text: bytes that are none cannot be opened.
fn refuse(rt: &HostRuntime, path: &[u8]) -> io::Result<bool> {
    rt.stderr().write_all(path)?;
    eprintln!(rt; ": cannot be opened")?;
    Ok(false)
}

fn run_argument(rt: &HostRuntime, path: &[u8]) -> io::Result<bool> {
    match str::from_utf8(path) {
        Ok(path) => run(rt, path),
        Err(_) => refuse(rt, path),
    }
}

// One argument after another, the program's name aside, until a file does not open. The program vectors goes on there instead.
fn main(rt: HostRuntime) -> io::Result<()> {
    let mut path = [0u8; 4096];
    for i in 1..usize::MAX {
        let goes_on = match rt.arg(i, &mut path) {
            Ok(n) => run_argument(&rt, &path[..n])?,
            Err(FillError::TooLong) => refuse(&rt, &path)?,
            Err(FillError::NotPresent) => false,
        };
        if !goes_on {
            break;
        }
    }
    Ok(())
}
