// The listing that `ring` prints of a run: a line for each step done, and a last line.
#![tactic(auto)]

mod written;

ghost use Rattle.std.specs.Prelude.{◌≡◌, true, length};
ghost use Rattle.ring_listing.specs.Text.{listing, is_listed, listed_to, over};

use crate::written::Text;

// Room for every listing: 8192 lines of at most 12 bytes, and a last line.
pub const ROOM: usize = 98320;

const MOST: u64 = 8192;

// Whether there is room for the listing, and each of its numbers is small enough.
fn is_listed(places: usize, samples: usize, count: u64, refusal: u64) -> bool
    ensures { result ≡ is_listed places samples count refusal }
{
    places >= ROOM && count <= MOST && count <= samples as u64 && refusal < 100
}

// The whole listing, where there is room.
fn put_all(out: &mut [u8], samples: &[i16], count: u64, refusal: u64) -> usize
    requires { is_listed (length out.old) (length samples.now) count refusal ≡ true }
    ensures value { result ≡ length (listing count samples.now refusal) }
    ensures out_after { out.new ≡ over (listing count samples.now refusal) out.old }
{
    let mut text = Text::new(out);
    text.put_steps(&samples[..count as usize]);
    text.put_done(count, refusal);
    text.len()
}

// The lines of the first `count` samples and the last line, at the start of out, and how many bytes that is; nothing where out has no room
// for every listing, where there are fewer samples or more than 8192 are asked for, and where the refusal has more than two digits.
// The refusal is a number: every one is answered.
// Ruled out: the lines numbered from 0; a negative sample one less in size.
#[tactic(auto, unfolding(crate::specs::Text::listed_to))]
pub fn put_listing(out: &mut [u8], samples: &[i16], count: u64, refusal: u64) -> usize
    ensures value { result ≡ length (listed_to out.old count samples.now refusal) }
    ensures out_after { out.new ≡ over (listed_to out.old count samples.now refusal) out.old }
{
    if is_listed(out.len(), samples.len(), count, refusal) {
        return put_all(out, samples, count, refusal);
    }
    0
}
