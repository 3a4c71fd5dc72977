// The share of a row, in billionths rounded both ways, from what its group of zones comes to at two penetrations.
#![tactic(auto)]

ghost use Rattle.std.specs.Prelude.{◌≡◌};
ghost use Rattle.chances.specs.Share.{Few, row_of};

use records::Ends;

// What a group adds and what it takes away, at one b.
#[derive(Clone, Copy, Default)]
pub struct Sums {
    pub added: Ends,
    pub taken: Ends,
}

// A row's share: the sums at its b, less those at the layer before.
#[tactic(auto, unfolding(crate::specs::Share::row_of, crate::specs::Share::lowest, crate::specs::Share::highest))]
pub fn row_ends(before: Sums, at: Sums) -> Ends
    requires { Few before × Few at }
    ensures { result ≡ row_of before at }
{
    let lower = at.added.lower + before.taken.lower;
    let upper = at.added.upper + before.taken.upper;
    Ends {
        lower: lower.saturating_sub(at.taken.upper + before.added.upper),
        upper: upper
            .saturating_sub(at.taken.lower + before.added.lower)
            .min(1_000_000_000),
    }
}
