// The shapes of lists that the walk cuts, and the one that the sizes give: the first set.
#![tactic(auto)]

ghost use Rattle.std.specs.Prelude.{◌≡◌, suc, ◌^◌, ◌<◌};
ghost use Rattle.paper.specs.Walk.{depth};

use sizes::Size;

// (S / 2^L)², the places of the first set.
#[tactic(auto, using(crate::proofs::Cuts::shifted_set))]
pub fn first_set(size: Size, levels: u32) -> usize
    requires { levels < size }
    ensures { result ≡ 4 ^ suc (depth size levels) }
{
    1 << (2 * (size.k() - levels))
}
