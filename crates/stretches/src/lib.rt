// A stretch of moving points, one after the other: one force on each of them. A piece of a row, for a pass that writes older itself.
#![tactic(auto)]

ghost use Rattle.std.specs.Prelude.{◌≡◌};
ghost use Rattle.scheme.specs.Step.{force_of};
ghost use Rattle.stretches.specs.Pieces.{piece_end, piece_at};
ghost use Rattle.stretches.specs.Stretches.{clamp, part_of, with_write, end_of, stretch_at, hit_in};

use types::Hit;

// The points from..to, and the force on each. The next value of point k goes to place k − base, if it is written: a field, and no constant
// of the type, as a part and a stretch of a row have the row's.
#[derive(Clone, Copy)]
pub struct Stretch {
    pub from: usize,
    pub to: usize,
    pub force: i64,
    pub base: usize,
    pub write: bool,
}

// k, or the end of from..to that is nearer to it. Not by `clamp`, which asks that from is at most to.
// Ruled out: the first end not looked at; the last end not looked at.
#[tactic(auto, using(crate::proofs::StretchLaws::clamp_is))]
pub fn clamped(from: usize, to: usize, k: usize) -> usize
    ensures { result ≡ clamp from to k }
{
    k.max(from).min(to)
}

// The force of a hit on a point. Ruled out: the force on every point; the force on none.
pub fn force_at(hit: Option<Hit>, at: usize) -> i64
    ensures { result ≡ force_of hit at }
{
    let Some(hit) = hit else {
        return 0;
    };
    if at == hit.point { hit.force } else { 0 }
}

// The end of the stretch at a, of points as far as e: the hit's point is a stretch of its own.
#[tactic(auto, using(crate::proofs::StretchLaws::end_row, crate::proofs::StretchLaws::end_after, crate::proofs::StretchLaws::end_here))]
fn stretch_end(hit: Option<Hit>, a: usize, e: usize) -> usize
    ensures { result ≡ end_of hit a e }
{
    let Some(hit) = hit else {
        return e;
    };
    if hit.point < a {
        return e;
    }
    clamped(a.saturating_add(1), e, hit.point)
}

// Whether a hit is at one of the points from..to. Ruled out: the point `to` counted in; the point `from` left out.
#[tactic(auto, using(crate::proofs::StretchLaws::hit_here), unfolding(crate::specs::Stretches::hit_in))]
pub fn is_hit_in(hit: Option<Hit>, from: usize, to: usize) -> bool
    ensures { result ≡ hit_in hit from to }
{
    let Some(hit) = hit else {
        return false;
    };
    from <= hit.point && hit.point < to // no shorter by a range
}

impl Stretch {
    // What lies of it in a..e. Ruled out: all its points after a; every part written.
    pub fn part(self, a: usize, e: usize) -> Stretch
        ensures { result ≡ part_of self a e }
    {
        let from = clamped(self.from, self.to, a);
        let to = clamped(self.from, self.to, e);
        Stretch { from, to, ..self }
    }

    // It, with its `write` as the caller's constant. Ruled out: its own `write` kept; no point of it left.
    pub fn as_written(self, wanted: bool) -> Stretch
        ensures { result ≡ with_write self wanted }
    {
        Stretch {
            write: wanted,
            ..self
        }
    }

    // The stretch at `at`, of its points. Ruled out: the hit's point with those after it; the hit's point with those before it.
    pub fn stretch_at(self, hit: Option<Hit>, at: usize) -> Stretch
        ensures { result ≡ stretch_at self hit at }
    {
        let to = stretch_end(hit, at, self.to);
        let force = force_at(hit, at);
        Stretch {
            from: at,
            to,
            force,
            ..self
        }
    }
}

// The most points of a piece: a row of a grid is one, a line has several.
pub const PIECE: usize = 64;

// The end of the piece at `at`, of points as far as `to`.
fn piece_end(at: usize, to: usize, in_place: bool) -> usize
    ensures { result ≡ piece_end in_place at to }
{
    if !in_place {
        return to;
    }
    to.min(at.saturating_add(PIECE))
}

// The piece at `at`, of points as far as `to`, without a force. In place its first value goes to place 0, else each to its point's place.
// Ruled out: a piece of 65 points; the values of a piece out of place from place 0 on.
pub fn piece_at(at: usize, to: usize, write: bool, in_place: bool) -> Stretch
    ensures { result ≡ piece_at in_place at to write }
{
    let end = piece_end(at, to, in_place);
    let base = if in_place { at } else { 0 };
    Stretch {
        from: at,
        to: end,
        force: 0,
        base,
        write,
    }
}
