// The case file is in specs/, what is proved of it in proofs/. Here stand the refusals with their numbers, and the values that the judging hands on.
#![tactic(auto)]

ghost use Rattle.std.specs.Prelude.{◌≡◌};
ghost use Rattle.casefile.specs.Told.{number_of_fault};

use records::{Hull, RowHead};

// An input has at most so many bytes.
pub const LONGEST_INPUT: usize = 65_536;

// A row is kept in a place of its own, as wide as the longest row; there is room for 500 rows and a line more.
pub const PLACE_WIDTH: usize = 76;

pub const KEPT: usize = 501 * PLACE_WIDTH;

// A refusal of document 01's table, and of document 02's of persons.
#[derive(Clone, Copy, Debug, PartialEq, Eq)]
pub enum Fault {
    TooLong,
    BadlyWritten,
    WrongFrame,
    Sizes,
    Zones,
    Count,
    Limits,
    OutOfOrder,
    LeftOpen,
    NoEnd,
    ShortSheet,
    PersonsBand,
}

impl From<Fault> for u64 {
    ghost from_gives = { λ f n. n ≡ number_of_fault f };

    // Its number in the table.
    fn from(fault: Fault) -> u64 {
        match fault {
            Fault::TooLong => 1,
            Fault::BadlyWritten => 2,
            Fault::WrongFrame => 3,
            Fault::Sizes => 4,
            Fault::Zones => 5,
            Fault::Count => 6,
            Fault::Limits => 7,
            Fault::OutOfOrder => 8,
            Fault::LeftOpen => 9,
            Fault::NoEnd => 10,
            Fault::ShortSheet => 11,
            Fault::PersonsBand => 13,
        }
    }
}

// Why a file is refused, and the line where: 0 where no line is at fault.
#[derive(Clone, Copy, Debug, PartialEq, Eq)]
pub struct Refused {
    pub fault: Fault,
    pub line: u64,
}

// What a line after the hull is: a row by its head, or the end with its count. A row's results are arrays, and stand beside it.
#[derive(Clone, Copy)]
pub enum Frame {
    Row(RowHead),
    End(u64),
}

// What is known after some lines: how many rows they held, the head of the last (kind 0: none yet), and whether the end was read. No option for the head:
// `out_of_order`, `leaves_open` and `ends_open` take any head as the one before, and answer on one of kind 0.
#[derive(Clone, Copy, Default)]
pub struct Progress {
    pub rows: u64,
    pub last: RowHead,
    pub ended: bool,
}

// What an accepted file says: the row count and the hull.
#[derive(Clone, Copy)]
pub struct Accepted {
    pub rows: u64,
    pub hull: Hull,
}
