// Whole slices of levels.
#![tactic(auto)]

ghost use Rattle.std.specs.Prelude.{◌≡◌, pos, length, replicate};
ghost use Rattle.slices.specs.Slices.{copied};

// Puts 0 everywhere, as the block promises of its work. Ruled out: 1 put in place of 0; point 0 left as it was.
pub fn clear(xs: &mut [i64])
    ensures { xs.new ≡ replicate (length xs.old) (pos 0) }
{
    xs.fill(0);
}

// Copies as many points as both slices have. Point by point: `copy_from_slice` calls `memmove`, which a board without a C library lacks.
// Ruled out: point 0 left as it was; the length of xs not looked at.
pub fn copy(xs: &[i64], ys: &mut [i64])
    ensures { ys.new ≡ copied xs.now ys.old }
{
    let n = xs.len().min(ys.len());
    for k in 0..n {
        ys[k] = xs[k];
    }
}

// Exchanges as many points as both slices have, where `swap_with_slice` asks for slices of one length.
// Ruled out: one slice copied over the other; point 0 left as it was.
#[tactic(auto, using(crate::proofs::SliceLaws::front_copied))]
pub fn exchange(xs: &mut [i64], ys: &mut [i64])
    ensures { (xs.new ≡ copied ys.old xs.old)
        × (ys.new ≡ copied xs.old ys.old) }
{
    let both = xs.len().min(ys.len());
    xs[..both].swap_with_slice(&mut ys[..both]);
}
