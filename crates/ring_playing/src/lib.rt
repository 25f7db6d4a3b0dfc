// What `ring` plays: a block at rest, of a grid of at most 1024 points.
#![tactic(auto)]

ghost use Rattle.std.specs.Prelude.{◌≡◌, ◌≤◌};
ghost use Rattle.ring_playing.specs.Play.{heard, heard_of, block_at_rest, played};

use block::block;
use ring_line::Numbers;
use ring_setup::set_up;
use types::{BlockAnswer, Hit, Instrument};

// A level at rest.
const AT_REST: [i64; 1024] = [0i64; 1024];

// The block over levels at rest of this length.
fn play_at_rest(
    i: Instrument,
    length: usize,
    samples: &mut [i16],
    pick: usize,
    hit: Option<Hit>,
) -> BlockAnswer
    requires { length ≤ 1024 }
    ensures { heard result samples.new ≡ heard_of (block_at_rest i length samples.old pick hit) }
{
    let mut older = AT_REST;
    let mut newer = AT_REST;
    let mut work = AT_REST;
    block(
        i,
        &mut older[..length],
        &mut newer[..length],
        &mut work[..length],
        samples,
        pick,
        hit,
    )
}

// The block that the numbers ask for, from rest, as many steps as samples has places.
// Ruled out: levels that are not at rest; the pick-up at the hit.
pub fn play_numbers(n: Numbers, samples: &mut [i16]) -> BlockAnswer
    ensures { heard result samples.new ≡ played n samples.old }
{
    let asked = set_up(n);
    match asked.length {
        Ok(length) => play_at_rest(asked.instrument, length, samples, n.pick, asked.hit),
        // as a refused block answers, whose own function takes what its steps tell
        Err(refusal) => BlockAnswer {
            steps: 0,
            inexact: 0,
            outcome: Err(refusal),
        },
    }
}
