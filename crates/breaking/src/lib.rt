// The breaking test (scope, "Breaking sets"): whether a set keeps no mask and depends on more shares than its wires pay for. These functions are
// in the inner loop of every search: they ask what `table_check` has tested, and test the masks before they count.
#![tactic(auto)]

ghost use Rattle.std.specs.Prelude.{◌≡◌, true, map, ◌≤◌, ◌<◌};
ghost use Rattle.limits.specs.Limits.{max_shares, max_masks};
ghost use Rattle.basics.specs.Folds.{one_if};
ghost use Rattle.wires.specs.Wires.{masked, pays, allowed, sum_breaks, breaks};
ghost use Rattle.records.specs.Layout.{wire_at, wire_count, inside, terms_of};
ghost use Rattle.shares.specs.Ones.{Ones};

use records::sums::{Sum, is_outer, sum_of_set};
use shares::ones::{WORDS, count};
use shares::shares_seen;
use wires::Notion;

// Whether a mask is left in a sum.
pub fn is_masked(sum: Sum) -> bool
    ensures { result ≡ masked max_masks (terms_of sum) }
{
    sum.masks != 0
}

// What a wire pays for shares: one under NI, under SNI one where it is an inner wire.
pub fn pay(table: &[u8], notion: Notion, wire: usize) -> usize
    requires { wire < wire_count table.now }
    ensures { (result ≡ one_if (pays notion (wire_at table.now wire))) × (result ≤ 1) }
{
    match notion {
        Notion::Ni => 1,
        Notion::Sni => usize::from(!is_outer(table, wire)),
    }
}

// How many wires of a set pay for a share: all of them under NI, the inner ones under SNI.
pub fn payers(table: &[u8], notion: Notion, set: &[u16]) -> usize
    requires { inside table.now set.now ≡ true }
    ensures { result ≡ allowed notion (map (wire_at table.now) set.now) }
{
    let mut count = 0;
    for wire in set {
        count += pay(table, notion, usize::from(*wire));
    }
    count
}

// Whether a sum breaks where so many wires pay. Most sums keep a mask, so the masks come first.
pub fn sum_breaks(ones: &[u8; WORDS], sum: Sum, paid: usize) -> bool
    requires { Ones ones.now }
    ensures { result ≡ sum_breaks max_shares max_masks paid (terms_of sum) }
{
    if is_masked(sum) {
        return false;
    }
    let seen = shares_seen(sum);
    if paid < count(ones, seen.a) {
        return true;
    }
    paid < count(ones, seen.b)
}

// Whether a set of wires breaks a notion. The set is the caller's: a wire given twice cancels and still pays.
pub fn set_breaks(table: &[u8], notion: Notion, set: &[u16]) -> bool
    requires { inside table.now set.now ≡ true }
    ensures { result ≡ breaks notion max_shares max_masks (map (wire_at table.now) set.now) }
{
    let ones = shares::ones::table();
    sum_breaks(&ones, sum_of_set(table, set), payers(table, notion, set))
}
