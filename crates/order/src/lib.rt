// Document 01's order on records: a row after the row before it, and the end after the last row (refusals 8 and 9).
#![tactic(auto)]

ghost use Rattle.std.specs.Prelude.{◌≡◌};
ghost use Rattle.casefile.specs.Order.{at_top, closes_group, same_group, same_layer, earlier_group, out_of_order, leaves_open, ends_open};

use records::{Hull, RowHead};

// At or above ds + 12,500: the top of its layer. No height reaches a sum that does not fit.
#[tactic(auto, unfolding(casefile::specs::Order::at_top))]
fn at_top(h: Hull, r: RowHead) -> bool
    ensures { result ≡ at_top h r }
{
    let Some(top) = h.deepest.checked_add(12500) else {
        return false;
    };
    top <= r.height
}

#[tactic(auto, unfolding(casefile::specs::Order::closes_group))]
fn closes_group(h: Hull, r: RowHead) -> bool
    ensures { result ≡ closes_group h r }
{
    (r.depth == h.breadth / 2) & at_top(h, r)
}

#[tactic(auto, unfolding(casefile::specs::Order::same_group))]
fn same_group(before: RowHead, r: RowHead) -> bool
    ensures { result ≡ same_group before r }
{
    (r.first, r.count) == (before.first, before.count)
}

#[tactic(auto, unfolding(casefile::specs::Order::same_layer))]
fn same_layer(before: RowHead, r: RowHead) -> bool
    ensures { result ≡ same_layer before r }
{
    same_group(before, r) & (r.depth == before.depth)
}

#[tactic(auto, unfolding(casefile::specs::Order::earlier_group))]
fn earlier_group(before: RowHead, r: RowHead) -> bool
    ensures { result ≡ earlier_group before r }
{
    (r.first, r.count) < (before.first, before.count)
}

// Refusal 8 is given where this holds.
#[tactic(auto, unfolding(casefile::specs::Order::out_of_order))]
pub fn out_of_order(h: Hull, before: RowHead, r: RowHead) -> bool
    ensures { result ≡ out_of_order h before r }
{
    (before.kind != 0)
        & (earlier_group(before, r)
            | (same_group(before, r) & (r.depth < before.depth))
            | (same_layer(before, r) & ((r.height <= before.height) | at_top(h, before))))
}

// Refusal 9 is given at a row where this holds.
#[tactic(auto, unfolding(casefile::specs::Order::leaves_open))]
pub fn leaves_open(h: Hull, before: RowHead, r: RowHead) -> bool
    ensures { result ≡ leaves_open h before r }
{
    (before.kind != 0)
        & ((!same_group(before, r) & !closes_group(h, before))
            | (same_group(before, r) & !same_layer(before, r) & !at_top(h, before)))
}

// Refusal 9 is given at the end where this holds.
#[tactic(auto, unfolding(casefile::specs::Order::ends_open))]
pub fn ends_open(h: Hull, before: RowHead) -> bool
    ensures { result ≡ ends_open h before }
{
    (before.kind != 0) & !closes_group(h, before)
}
