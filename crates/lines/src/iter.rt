// The lines of a text, one after the other.
ghost use Rattle.std.specs.Iterator.{YieldsFirstBy, item_count};
ghost use Rattle.lines.specs.Lines.{lines};
ghost use Rattle.lines.specs.Read.{line_of};

use super::line_end;

// What stands before a line feed, or at the end of a text that has none there, and whether there is one.
#[derive(Clone, Copy)]
pub struct Line<'a> {
    pub text: &'a [u8],
    pub closed: bool,
}

// The lines of what is left of a text.
#[derive(Clone, Copy)]
pub struct Lines<'a> {
    pub rest: &'a [u8],
}

impl<'a> Iterator for Lines<'a> {
    type Item = Line<'a>;

    ghost next_gives = { YieldsFirstBy line_of (λ s. lines s.rest.now) };

    ghost remaining = { item_count (λ s. lines s.rest.now) };

    #[tactic(auto, using(crate::proofs::Lines::lines_end, crate::proofs::Lines::length_within, crate::proofs::Lines::cut_open, crate::proofs::Lines::cut_closed, crate::proofs::Lines::one_fewer))]
    fn next(&mut self) -> Option<Line<'a>> {
        if self.rest.is_empty() {
            return None;
        }
        let (text, after) = self.rest.split_at(line_end(self.rest, 0));
        match after.split_first() {
            Some((_, rest)) => {
                self.rest = rest;
                Some(Line { text, closed: true })
            }
            None => {
                self.rest = after;
                Some(Line {
                    text,
                    closed: false,
                })
            }
        }
    }
}
