// The test of a table's records.
ghost use Rattle.std.specs.Prelude.{◌≡◌, not, ◌<◌};
ghost use Rattle.basics.specs.Folds.{some, up_to};
ghost use Rattle.records.specs.Layout.{wire_count, record_at};
ghost use Rattle.table.specs.Answers.{wrong_record};

use limits::RECORD_BYTES;
use record_tests::tests::is_within;
use records::layout::OUTER_AT;
use records::sums::wire_record;

// Whether a record has no bit beyond the shares and masks, and byte 18 is 0 or 1.
fn record_fits(table: &[u8], wire: usize, shares: usize, masks: usize) -> bool
    requires { wire < wire_count table.now }
    ensures { result ≡ not (wrong_record shares masks (record_at table.now wire)) }
{
    if !is_within(wire_record(table, wire), shares, masks) {
        return false;
    }
    table[RECORD_BYTES * wire + OUTER_AT] <= 1
}

// Whether every record of a table fits.
pub fn records_fit(table: &[u8], shares: usize, masks: usize) -> bool
    ensures { result ≡ not (some (λ w. wrong_record shares masks (record_at table.now w)) (up_to (wire_count table.now))) }
{
    let count = table.len() / RECORD_BYTES;
    for wire in 0..count {
        if !record_fits(table, wire, shares, masks) {
            return false;
        }
    }
    true
}
