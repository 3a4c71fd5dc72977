// The survivals of a row as it is kept.
ghost use Rattle.std.specs.Prelude.{◌≡◌};
ghost use Rattle.survival.specs.Survival.{survivals_of};
ghost use Rattle.indices.specs.Index.{Given};
ghost use Rattle.casefile.specs.Layout.{row_of};

use passengers::passenger_survivals;
use records::Survival;
use results::{survivals, worse_survivals};
use rowlines::kept::KeptRow;

// From its one set of results, from two at each draught the lower, or from what a passenger ship's row tells.
pub fn survivals_of(row: &KeptRow) -> [Survival; 3]
    requires { Given (row_of row.now.place.now).results }
    ensures { result ≡ survivals_of (row_of row.now.place.now).head.kind (row_of row.now.place.now).results }
{
    let kind = row.kind();
    let first = row.first();
    match kind {
        5 => worse_survivals(first, row.second()),
        7 => passenger_survivals(first, row.floodings()),
        _ => survivals(kind, first),
    }
}
