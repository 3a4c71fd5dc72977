// A hull with the ends of all spans of its zones, in a table that is lent: what damage to its zones is worked out from.
ghost use Rattle.std.specs.Prelude.{◌≡◌};
ghost use Rattle.spans.specs.Hull.{Hulled};
ghost use Rattle.spans.specs.Table.{table_of};

use records::Hull;

// The hull has what an accepted file gives, and the table is that of its spans.
#[derive(Clone, Copy)]
pub struct Subdivision<'a> {
    pub hull: Hull,
    pub table: &'a [u64],
    pub ghost hulled: { Hulled hull },
    pub ghost filled: { table.now ≡ table_of hull },
}
