// The chance of damage to a group of zones within a penetration, and the share of a row, worked from a subdivision's span table.
#![tactic(auto)]

ghost use Rattle.std.specs.Prelude.{◌≡◌, ◌*◌, ◌≤◌};
ghost use Rattle.solas.specs.Count.{Group};
ghost use Rattle.spans.specs.Rounded.{Probable};
ghost use Rattle.spans.specs.Hull.{ship_of};
ghost use Rattle.chances.specs.Share.{within_ends, sums_of, Few, row_ends};
ghost use Rattle.groups.specs.Layered.{Layered};

use chances::{Sums, row_ends};
use layers::{Layer, at_depth};
use penetration::{g_ends, q_ends, with};
use records::Ends;
use spans::span_of;
use subdivision::Subdivision;

pub mod subdivision; // a hull with its span table

// No chance at all.
const NONE: Ends = Ends { lower: 0, upper: 0 };

impl<'a> Subdivision<'a> {
    // Q of the zones from a to e, both taken in, at the layer y; where b is 0, nothing.
    fn zones_within(&self, a: usize, e: usize, y: Layer) -> Ends
        requires { (1 ≤ a) × (a ≤ e) × (e ≤ self.now.hull.zones) × Layered self.now.hull.breadth y }
        ensures { (result ≡ within_ends (ship_of self.now.hull) y.depth a e) × Probable result }
    {
        if y.depth == 0 {
            return NONE;
        }
        let h = &self.hull;
        let s = span_of(self.table, a, e);
        let g = g_ends(
            h.length,
            h.breadth,
            h.places[a - 1],
            h.places[e],
            s.inner,
            y,
        );
        q_ends(y.c, y.d, s.chance, g)
    }

    // The group of n zones from zone a, at the layer y.
    fn group_sums(&self, a: usize, n: usize, y: Layer) -> Sums
        requires { Group (ship_of self.now.hull) a n × Layered self.now.hull.breadth y }
        ensures { (result ≡ sums_of (ship_of self.now.hull) y.depth a n) × Few result }
    {
        let e = a + n - 1;
        let all = self.zones_within(a, e, y);
        if n == 1 {
            return Sums {
                added: all,
                taken: NONE,
            };
        }
        let without_last = self.zones_within(a, e - 1, y);
        let without_first = self.zones_within(a + 1, e, y);
        let taken = with(without_last, without_first);
        if n == 2 {
            return Sums { added: all, taken };
        }
        let middle = self.zones_within(a + 1, e - 1, y);
        let added = with(all, middle);
        Sums { added, taken }
    }

    // What the group of n zones from zone a comes to down to a penetration: nothing at 0, where no layer has to be worked out.
    pub fn sums_at(&self, a: usize, n: usize, b: u64) -> Sums
        requires { Group (ship_of self.now.hull) a n × (2 * b ≤ self.now.hull.breadth) }
        ensures { (result ≡ sums_of (ship_of self.now.hull) b a n) × Few result }
    {
        if b == 0 {
            return Sums {
                added: NONE,
                taken: NONE,
            };
        }
        self.group_sums(a, n, at_depth(self.hull.breadth, b))
    }

    // The share of the row of n zones from zone a, in the layer from b1 to b2.
    #[tactic(auto, unfolding(chances::specs::Share::row_ends))]
    pub fn share_ends(&self, a: usize, n: usize, b1: u64, b2: u64) -> Ends
        requires { Group (ship_of self.now.hull) a n × (2 * b1 ≤ self.now.hull.breadth) × (2 * b2 ≤ self.now.hull.breadth) }
        ensures { result ≡ row_ends (ship_of self.now.hull) a n b1 b2 }
    {
        let before = self.sums_at(a, n, b1);
        let at = self.sums_at(a, n, b2);
        row_ends(before, at)
    }
}
