// The first line of a reader. Where its bytes come in parts, no more is read once a line feed came.
ghost use Rattle.std.specs.Prelude.{◌≡◌, ◌+◌, ◌≤◌, ◌<◌, nat_eq, length, take, drop, IfOk, IfSome};
ghost use Rattle.std.specs.List.{list_any};
ghost use Rattle.std.specs.Io.KnownBytes.{Consumes, IsAtEnd};
ghost use Rattle.io.specs.Counts.{IsPrefixLen};
ghost use Rattle.ring_line.specs.Requests.{line_feed};
ghost use Rattle.ring_shell.specs.Reading.{SameLine};

use std::io;
use std::io::Read;

const LINE_FEED: u8 = 10;

fn has_line_feed(bytes: &[u8]) -> bool
    ensures { result ≡ list_any (λ b. nat_eq b line_feed) bytes.now }
{
    bytes.contains(&LINE_FEED)
}

// One read into the bytes from `at` on: how many came, 0 at the end. The contract speaks of the bytes before `at` too.
fn read_some<R: Read>(input: &mut R, bytes: &mut [u8], at: usize) -> io::Result<usize>
    requires { at ≤ length bytes.old }
    ensures in_bounds { IfOk result (λ came. at + came ≤ length bytes.new) }
    ensures earlier { take at bytes.new ≡ take at bytes.old }
    ensures read { IfOk result (λ came. Consumes (R.remaining input.old) (R.remaining input.new) (take came (drop at bytes.new))) }
    ensures end { IfOk result (λ came. came ≡ 0 → at < length bytes.new → IsAtEnd (R.remaining input.new)) }
{
    input.read(&mut bytes[at..])
}

// Reads until a line feed came, the bytes are full, or the input ends; how many were read. A read that fails ends it with that error.
// Not by the library's `read_until`: it reads into a Vec, and the engine has no heap.
pub(crate) fn read_line<R: Read>(input: &mut R, bytes: &mut [u8]) -> io::Result<usize>
    ensures prefix_len { IfOk result (λ n. IsPrefixLen n bytes.new) }
    ensures line { IfOk result (λ n. IfSome (R.remaining input.old) (SameLine (length bytes.old) (take n bytes.new))) }
{
    let mut n = 0;
    while n < bytes.len() {
        let came = read_some(input, bytes, n)?;
        if came == 0 {
            return Ok(n);
        }
        let end = n + came;
        if has_line_feed(&bytes[n..end]) {
            return Ok(end);
        }
        n = end;
    }
    Ok(n)
}
