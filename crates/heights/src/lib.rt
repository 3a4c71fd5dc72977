// Heights in code: the factor v of a row at each of the three draughts, in 916,500ths, and the draughts themselves.
#![tactic(auto)]

ghost use Rattle.std.specs.Prelude.{◌≡◌, ◌^◌, ◌<◌};
ghost use Rattle.solas.specs.Height.{v, v_at, row_v};
ghost use Rattle.solas.specs.Index.{dp, draughts};
ghost use Rattle.heights.specs.Height.{row_vs};

// v of a height h above the draught.
#[tactic(auto, using(solas::proofs::Height::v_slopes))]
fn factor(h: u64) -> u64
    ensures { result ≡ v h }
{
    match h {
        0..=7_800 => 94 * h,
        7_801..=12_500 => 733_200 + 39 * (h - 7_800),
        _ => 916_500,
    }
}

// v of a height over the baseline, at a draught.
#[tactic(auto, unfolding(solas::specs::Height::v_at))]
fn factor_at(height: u64, draught: u64) -> u64
    ensures { result ≡ v_at height draught }
{
    factor(height.saturating_sub(draught))
}

// A row's v at a draught, over the row below it in its layer (0 under the first).
#[tactic(auto, unfolding(solas::specs::Height::row_v))]
pub fn row_factor(below: u64, height: u64, draught: u64) -> u64
    ensures { result ≡ row_v below height draught }
{
    factor_at(height, draught).saturating_sub(factor_at(below, draught))
}

// A row's v at the three draughts.
#[tactic(auto, unfolding(crate::specs::Height::row_vs))]
pub fn row_factors(below: u64, height: u64, at: [u64; 3]) -> [u64; 3]
    ensures { result ≡ row_vs below height at }
{
    at.map(|draught| row_factor(below, height, draught))
}

// The middle draught between the deepest and the light one.
#[tactic(auto, unfolding(solas::specs::Index::dp))]
fn middle_draught(deepest: u64, light: u64) -> u64
    requires { (deepest < 2 ^ 32) × (light < 2 ^ 32) }
    ensures { result ≡ dp deepest light }
{
    light + 3 * deepest.saturating_sub(light) / 5
}

// The three draughts, always in the order deepest, partial, light.
pub fn three_draughts(deepest: u64, light: u64) -> [u64; 3]
    requires { (deepest < 2 ^ 32) × (light < 2 ^ 32) }
    ensures { result ≡ draughts deepest light }
{
    [deepest, middle_draught(deepest, light), light]
}
