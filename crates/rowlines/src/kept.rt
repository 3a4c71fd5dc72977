// A kept row's records: the rows' frames stand one after the other in a buffer, each in the front of a place of its own.
ghost use Rattle.std.specs.Prelude.{◌≡◌, ◌+◌, ◌*◌, ◌≤◌, length, take, drop};
ghost use Rattle.casefile.specs.Layout.{row_of};
ghost use Rattle.casefile.specs.Kept.{place_width, kept_row};

use super::readers;
use casefile::PLACE_WIDTH;
use records::{Finding, Flooding, RowHead};

// A row as it is kept: the bytes of its place.
#[derive(Clone, Copy)]
pub struct KeptRow<'a> {
    pub place: &'a [u8],
    pub ghost width: { length place.now ≡ place_width },
}

// The row at place i.
pub fn row_at(kept: &[u8], i: usize) -> KeptRow
    requires { place_width * i + place_width ≤ length kept.now }
    ensures bytes { result.place.now ≡ take place_width (drop (place_width * i) kept.now) }
    ensures row { row_of result.place.now ≡ kept_row kept.now i }
{
    let at = PLACE_WIDTH * i;
    KeptRow {
        place: &kept[at..at + PLACE_WIDTH],
    }
}

impl<'a> KeptRow<'a> {
    // Its kind.
    pub fn kind(&self) -> u64
        ensures { result ≡ (row_of self.now.place.now).head.kind }
    {
        u64::from(self.place[0])
    }

    // Its head.
    pub fn head(&self) -> RowHead
        ensures { result ≡ (row_of self.now.place.now).head }
    {
        readers::head(self.kind(), &self.place[1..])
    }

    // Its first set of results.
    pub fn first(&self) -> [Finding; 3]
        ensures { result ≡ take 3 (row_of self.now.place.now).results.findings }
    {
        readers::set(self.kind(), &self.place[7..])
    }

    // The second set of a row of kind 05.
    pub fn second(&self) -> [Finding; 3]
        requires { (row_of self.now.place.now).head.kind ≡ 5 }
        ensures { result ≡ drop 3 (row_of self.now.place.now).results.findings }
    {
        readers::set(5, &self.place[31..])
    }

    // What a row of kind 07 tells besides.
    pub fn floodings(&self) -> [Flooding; 3]
        requires { (row_of self.now.place.now).head.kind ≡ 7 }
        ensures { result ≡ (row_of self.now.place.now).results.floodings }
    {
        readers::floodings(&self.place[31..])
    }
}
