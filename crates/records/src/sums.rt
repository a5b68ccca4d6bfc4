// Records added up (scope, "Breaking sets"). These functions are in the inner loop of every search: they ask what `table_check` has tested.
ghost use Rattle.std.specs.Prelude.{◌≡◌, true, map, ◌<◌};
ghost use Rattle.wires.specs.Wires.{none, plus, total, SumOfValues};
ghost use Rattle.wires.specs.Function.{outers};
ghost use Rattle.records.specs.Layout.{wire_at, wire_count, wires, inside, terms_of, no_sum, plus_sum};

use super::layout::{MASKS_AT, OUTER_AT, SHARES_A_AT, SHARES_B_AT, word};
use limits::RECORD_BYTES;

// Records added bit by bit without carry: what stands in their first 18 bytes.
#[derive(Clone, Copy, PartialEq, Eq)]
pub struct Sum {
    pub products: u64,
    pub masks: u64,
    pub shares_a: u8,
    pub shares_b: u8,
}

// The record of a wire.
pub fn wire_record(table: &[u8], wire: usize) -> Sum
    requires { wire < wire_count table.now }
    ensures { terms_of result ≡ (wire_at table.now wire).terms }
{
    let at = RECORD_BYTES * wire;
    Sum {
        products: word(table, at),
        masks: word(table, at + MASKS_AT),
        shares_a: table[at + SHARES_A_AT],
        shares_b: table[at + SHARES_B_AT],
    }
}

// Whether a wire is an outer one.
pub fn is_outer(table: &[u8], wire: usize) -> bool
    requires { wire < wire_count table.now }
    ensures { result ≡ (wire_at table.now wire).outer }
{
    table[RECORD_BYTES * wire + OUTER_AT] == 1
}

// Two sums added.
// kept: `s ^ t` is no plainer, since a BitXor impl says one relation `bitxor_gives` in place of the clauses `result_value` and `value`
pub fn added(s: Sum, t: Sum) -> Sum
    ensures result_value { terms_of result ≡ plus (terms_of s) (terms_of t) }
    ensures value { result ≡ plus_sum s t }
{
    Sum {
        products: s.products ^ t.products,
        masks: s.masks ^ t.masks,
        shares_a: s.shares_a ^ t.shares_a,
        shares_b: s.shares_b ^ t.shares_b,
    }
}

// A sum with the record of a wire added, which is read where it stands. A record that is added twice is gone again.
pub fn with_wire(sum: Sum, table: &[u8], wire: usize) -> Sum
    requires { wire < wire_count table.now }
    ensures { terms_of result ≡ plus (terms_of sum) (wire_at table.now wire).terms }
{
    let at = RECORD_BYTES * wire;
    Sum {
        products: sum.products ^ word(table, at),
        masks: sum.masks ^ word(table, at + MASKS_AT),
        shares_a: sum.shares_a ^ table[at + SHARES_A_AT],
        shares_b: sum.shares_b ^ table[at + SHARES_B_AT],
    }
}

// The sum of no records.
// kept: `Sum::default()` is no plainer, since a Default impl says one property `is_default` in place of the clauses `result_value` and `value`
pub fn nothing() -> Sum
    ensures result_value { terms_of result ≡ none }
    ensures value { result ≡ no_sum }
{
    Sum {
        products: 0,
        masks: 0,
        shares_a: 0,
        shares_b: 0,
    }
}

// The records of a set of wires added up.
pub fn sum_of_set(table: &[u8], set: &[u16]) -> Sum
    requires { inside table.now set.now ≡ true }
    ensures result_value { terms_of result ≡ total (map (wire_at table.now) set.now) }
    ensures sum_of_values { SumOfValues (terms_of result) (map (wire_at table.now) set.now) }
{
    let mut sum = nothing();
    for wire in set {
        sum = with_wire(sum, table, usize::from(*wire));
    }
    sum
}

// The records of a table's outer wires added up.
pub fn sum_of_outers(table: &[u8]) -> Sum
    ensures result_value { terms_of result ≡ total (outers (wires table.now)) }
    ensures sum_of_values { SumOfValues (terms_of result) (outers (wires table.now)) }
{
    let count = table.len() / RECORD_BYTES;
    let mut sum = nothing();
    for wire in 0..count {
        if is_outer(table, wire) {
            sum = with_wire(sum, table, wire);
        }
    }
    sum
}
