// What the program `ring` answers to the bytes of its standard input: the whole of what is printed, in a lent buffer or to a writer.
#![tactic(auto)]

mod read;

ghost use Rattle.std.specs.Prelude.{◌≡◌, ◌≤◌, length, OnOk, IfSome};
ghost use Rattle.std.specs.Io.KnownBytes.{Appends};
ghost use Rattle.io.specs.Counts.{IsPrefixLen};
ghost use Rattle.ring_playing.specs.Play.{played};
ghost use Rattle.ring_listing.specs.Text.{over, room};
ghost use Rattle.ring_shell.specs.Answer.{played_text, run_text, answer, written_to};
ghost use Rattle.ring_shell.specs.Written.{Written};

use crate::read::read_line;
use ring_line::{Numbers, request};
use ring_listing::{ROOM, put_listing};
use ring_playing::play_numbers;
use std::io;
use std::io::{Read, Write};
use types::number_of;

// As many samples as a line may ask for, none of them played.
const SILENCE: [i16; 8192] = [0i16; 8192];

// The answer to a line that is no ten numbers.
const INPUT: &[u8] = b"input\n";

fn put_played(out: &mut [u8], n: Numbers, samples: &mut [i16]) -> usize
    requires { (room ≤ length out.old) × (length samples.old ≤ 8192) }
    ensures { Written out.old (played_text (played n samples.old)) result out.new }
{
    let answer = play_numbers(n, samples);
    let done = answer.steps;
    put_listing(out, samples, done as u64, number_of(answer.outcome))
}

fn put_run(out: &mut [u8], n: Numbers) -> usize
    requires { (room ≤ length out.old) × (n.steps ≤ 8192) }
    ensures { Written out.old (run_text n) result out.new }
{
    let mut samples = SILENCE;
    put_played(out, n, &mut samples[..n.steps])
}

// What is printed for the bytes read, where there is room.
fn put_answer(out: &mut [u8], bytes: &[u8]) -> usize
    requires { room ≤ length out.old }
    ensures { Written out.old (answer bytes.now) result out.new }
{
    match request(bytes) {
        Some(n) => put_run(out, n),
        None => {
            out[..INPUT.len()].copy_from_slice(INPUT);
            INPUT.len()
        }
    }
}

// What `ring` prints for the bytes of its standard input, at the start of out, and how many bytes that is; nothing where out has no room
// for every answer. Ruled out: the count and the refusal exchanged; the byte after the text cleared.
#[tactic(auto, unfolding(crate::specs::Answer::written_to))]
pub fn answer(out: &mut [u8], bytes: &[u8]) -> usize
    ensures prefix_len { IsPrefixLen result out.new }
    ensures value { result ≡ length (written_to out.old bytes.now) }
    ensures out_after { out.new ≡ over (written_to out.old bytes.now) out.old }
{
    if out.len() < ROOM {
        return 0;
    }
    put_answer(out, bytes)
}

// Writes what `ring` prints where the reader is its standard input. A read that fails ends it with that error before anything is written,
// a write that fails where it fails. Ruled out: nothing written; the answer to no bytes. What is left of the reader is not said.
pub fn print_answer<R: Read, W: Write>(input: &mut R, output: &mut W) -> io::Result<()>
    ensures { OnOk result (IfSome (R.remaining input.old) (λ all. Appends (W.contents output.old) (W.contents output.new) (answer all))) }
{
    let mut bytes = [0u8; 256];
    let n = read_line(input, &mut bytes)?;
    let mut out = [0u8; ROOM];
    let size = answer(&mut out, &bytes[..n]);
    output.write_all(&out[..size])
}
