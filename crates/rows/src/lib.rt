// The rows of a file in turn: where each stands, its share on the sheet or its line in a report, and the sums of what they add.
#![tactic(auto)]

use chances::Sums;
use records::{Ends, RowHead, Survival};

pub mod kept_rows; // the rows as they are kept
pub mod report_lines; // the rows in turn: their lines in a report
pub mod row; // a row after those before it
pub mod sheet; // the rows in turn: their shares on the sheet
pub mod survivals; // the survivals of a row as it is kept

// A row's head, the penetration of the layer before its own (0 in the group's first), and the height of the row below it (0 in
// the layer's first).
#[derive(Clone, Copy, Default)]
pub struct Standing {
    pub head: RowHead,
    pub before: u64,
    pub below: u64,
}

// What a row's group comes to down to its layer, and the row's share.
#[derive(Clone, Copy, Default)]
pub struct Part {
    pub group: Sums,
    pub share: Ends,
}

// What is known after some rows: where the last of them stood, its part, its survivals, and what they added together at the three draughts.
#[derive(Clone, Copy, Default)]
pub struct Running {
    pub standing: Standing,
    pub part: Part,
    pub survivals: [Survival; 3],
    pub sums: [Ends; 3],
}
