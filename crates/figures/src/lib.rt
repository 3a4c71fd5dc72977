// An answer as twelve figures in front of a lent slice, for hosts that take numbers.
#![tactic(auto)]

ghost use Rattle.std.specs.Prelude.{◌≡◌, ◌≤◌, length};
ghost use Rattle.figures.specs.Figures.{figures_in};

use records::Answer;

// The twelve figures of an answer, in front; what lies after them stays.
pub fn write_figures(a: Answer, figures: &mut [u64])
    requires { 12 ≤ length figures.old }
    ensures { figures.new ≡ figures_in a figures.old }
{
    let [deepest, partial, light] = a.partials;
    figures[..12].copy_from_slice(&[
        a.number,
        a.line,
        a.verdict,
        a.rows,
        a.attained.lower,
        a.attained.upper,
        deepest.lower,
        deepest.upper,
        partial.lower,
        partial.upper,
        light.lower,
        light.upper,
    ]);
}
