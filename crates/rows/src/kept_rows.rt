// The rows of a case as they are kept, with the subdivision of the ship that they are of and its three draughts.
ghost use Rattle.std.specs.Prelude.{◌≡◌, ◌*◌, ◌^◌, ◌≤◌, ◌<◌, length};
ghost use Rattle.solas.specs.Index.{draughts as draughts_of};
ghost use Rattle.casefile.specs.Kept.{place_width, kept_rows};
ghost use Rattle.rows.specs.Standing.{nowhere};
ghost use Rattle.rows.specs.Running.{Follow, follow_prop, SharesFit};

use groups::subdivision::Subdivision;

// What any row of a ship is worked out by: her subdivision, her draughts, and where rows are kept.
#[derive(Clone, Copy)]
pub struct Kept<'a> {
    pub ship: Subdivision<'a>,
    pub draughts: [u64; 3],
    pub bytes: &'a [u8],
    pub ghost drawn: { draughts ≡ draughts_of ship.hull.deepest ship.hull.light },
    pub ghost shares: { SharesFit ship.hull },
}

// So many rows from the first place on, at most 500, one after the other as an accepted file has them.
#[derive(Clone, Copy)]
pub struct KeptRows<'a> {
    pub kept: Kept<'a>,
    pub count: usize,
    pub ghost few: { count ≤ 500 },
    pub ghost room: { place_width * count ≤ length kept.bytes.now },
    pub ghost follow: { Follow kept.ship.hull nowhere (kept_rows count kept.bytes.now 0) } by { follow_prop kept.ship.hull nowhere (kept_rows count kept.bytes.now 0) },
}

// So many rows of a subdivided ship.
pub fn of<'a>(ship: Subdivision<'a>, bytes: &'a [u8], count: usize) -> KeptRows<'a>
    requires sizes { (ship.hull.deepest < 2 ^ 32) × (ship.hull.light < 2 ^ 32) × (count ≤ 500) × (place_width * count ≤ length bytes.now) }
    requires shares { SharesFit ship.hull }
    requires follow { Follow ship.hull nowhere (kept_rows count bytes.now 0) }
    ensures { (result.kept.ship.hull ≡ ship.entry.hull) × (result.kept.bytes.now ≡ bytes.now) × (result.count ≡ count) }
{
    let draughts = heights::three_draughts(ship.hull.deepest, ship.hull.light);
    let kept = Kept {
        ship,
        draughts,
        bytes,
    };
    KeptRows { kept, count }
}
