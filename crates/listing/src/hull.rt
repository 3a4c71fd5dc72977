// What a hull alone decides, as numbers: R and the mark of a partial index, and the share of each group of its zones.
ghost use Rattle.std.specs.Prelude.{◌≡◌, [], ◌∷◌, ◌++◌, ◌+◌, ◌*◌, ◌≤◌, length, drop};
ghost use Rattle.std.proofs.lemmas.List.Edits.{sets};
ghost use Rattle.verdicts.specs.Required.{Sized};
ghost use Rattle.listing.specs.Hull.{required_numbers, group_numbers};

use groups::subdivision::Subdivision;
use records::{Ends, Hull};
use verdicts::Standard;

// R, then the mark of a partial index: numerator and denominator of each.
pub fn put_required(h: Hull, out: &mut [u64])
    requires { Sized h × (4 ≤ length out.old) }
    ensures { out.new ≡ required_numbers h ++ drop 4 out.old }
{
    let Standard { required, mark } = verdicts::standard_of(h);
    out[..4].copy_from_slice(&[required.num, required.den, mark.num, mark.den]);
}

// The two ends of a share.
pub fn put_ends(e: Ends, out: &mut [u64], at: usize)
    requires { at + 2 ≤ length out.old }
    ensures { out.new ≡ sets out.old at (e.lower ∷ e.upper ∷ []) }
{
    out[at..at + 2].copy_from_slice(&[e.lower, e.upper]);
}

// The share of each group of zones down to half the breadth: of the groups of n zones from zone a, by a and then by n.
pub fn put_groups(ship: &Subdivision, out: &mut [u64])
    requires { ship.now.hull.zones * (ship.now.hull.zones + 1) ≤ length out.old }
    ensures { out.new ≡ group_numbers ship.now.hull ++ drop (ship.now.hull.zones * (ship.now.hull.zones + 1)) out.old }
{
    let zones = ship.hull.zones;
    let half = ship.hull.breadth / 2;
    let mut i: usize = 0;
    for a in 1..zones + 1 {
        for n in 1..zones + 2 - a {
            let share = ship.share_ends(a, n, 0, half);
            put_ends(share, out, 2 * i);
            i += 1;
        }
    }
}
