// The line of the program `ring`: ten numbers, or `input`.
#![tactic(auto)]

mod asked;

ghost use Rattle.std.specs.Prelude.{◌≡◌, nat_eq, position};
ghost use Rattle.ring_line.specs.Lists.{before};
ghost use Rattle.ring_line.specs.Requests.{line_feed, line_request, request_of};
ghost use Rattle.ring_line.specs.Reading.{ten};

pub use asked::Numbers;
use ring_decimals::{read_signed, read_unsigned};

const SPACE: u8 = 32;

const LINE_FEED: u8 = 10;

// Nine values and the force, in the order of the line: no `From`, since the force comes beside the values.
fn numbers_of(values: [u64; 9], force: i64) -> Numbers
    ensures { result ≡ ten values force }
{
    let [kind, columns, rows, q, m, s, pick, steps, point] = values;
    Numbers {
        kind,
        columns: columns as usize,
        rows: rows as usize,
        q,
        m,
        s,
        pick: pick as usize,
        steps: steps as usize,
        point: point as usize,
        force,
    }
}

// What a whole line asks for. Where more than ten fields stand, what begins with the tenth is no number: a space is no digit.
fn line_request(line: &[u8]) -> Option<Numbers>
    ensures { result ≡ line_request line.now }
{
    let mut fields = line.splitn(10, |byte| *byte == SPACE);
    let mut values = [0u64; 9];
    for value in values.iter_mut() {
        *value = read_unsigned(fields.next()?)?;
    }
    let force = read_signed(fields.next()?)?;
    if 8192 < values[7] {
        return None;
    }
    Some(numbers_of(values, force))
}

fn line_feed_in(bytes: &[u8]) -> Option<usize>
    ensures { result ≡ position (λ b. nat_eq b line_feed) bytes.now }
{
    bytes.iter().position(|byte| *byte == LINE_FEED)
}

// The bytes before the first line feed; all of them where none is.
fn first_line(bytes: &[u8]) -> &[u8]
    ensures { result.now ≡ before line_feed bytes.now }
{
    match line_feed_in(bytes) {
        Some(end) => &bytes[..end],
        None => bytes,
    }
}

// The ten numbers of the first line of the bytes, or none where the line is answered by `input`. The definition `request_of` tells which,
// and `numbers` the values; the first 256 bytes of the input are enough (`FirstBytesTell`).
// Ruled out: a line of 256 bytes taken; 8193 steps taken.
#[tactic(auto, unfolding(crate::specs::Requests::request_of))]
pub fn request(bytes: &[u8]) -> Option<Numbers>
    ensures { result ≡ request_of bytes.now }
{
    let line = first_line(bytes);
    if 255 < line.len() {
        return None;
    }
    line_request(line)
}
