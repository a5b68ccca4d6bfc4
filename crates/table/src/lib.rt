// Wire tables: the tests that every operation on a table makes first, and the function check (scope, "Wires", "Breaking sets" and
// "What each operation turns down"). Tables come from the reader of texts or from a buyer's own tools; nothing here knows the reader.
// Every argument may be anything its type holds: what is out of range is refused, in the scope's order.
#![tactic(auto)]

ghost use Rattle.std.specs.Prelude.{◌≡◌, ◌<◌};
ghost use Rattle.table.specs.Answers.{refusal_number, table_told, table_check, function_told, function_check, FunctionMeans};

use limits::{MAX_MASKS, MAX_SHARES, MAX_TABLE_BYTES, MIN_SHARES, RECORD_BYTES};
use record_tests::functions;
use records::sums;

mod tests;

// Why an entry turns its arguments down.
#[derive(Clone, Copy)]
pub enum Refusal {
    SharesOrMasks,
    TableLength,
    RecordOutOfRange,
    NoSuchFunction,
}

impl Refusal {
    // The scope's number of the refusal.
    pub fn number(self) -> u64
        ensures { result ≡ refusal_number self }
    {
        match self {
            Refusal::SharesOrMasks => 11,
            Refusal::TableLength => 12,
            Refusal::RecordOutOfRange => 13,
            Refusal::NoSuchFunction => 20,
        }
    }
}

// The tests that every operation on a table makes first.
pub fn table_check(table: &[u8], shares: usize, masks: usize) -> Result<(), Refusal>
    ensures { table_told result ≡ table_check table.now shares masks }
{
    if shares < MIN_SHARES {
        return Err(Refusal::SharesOrMasks);
    }
    if MAX_SHARES < shares {
        return Err(Refusal::SharesOrMasks);
    }
    if MAX_MASKS < masks {
        return Err(Refusal::SharesOrMasks);
    }
    if table.len() % RECORD_BYTES != 0 {
        return Err(Refusal::TableLength);
    }
    if MAX_TABLE_BYTES < table.len() {
        return Err(Refusal::TableLength);
    }
    if !tests::records_fit(table, shares, masks) {
        return Err(Refusal::RecordOutOfRange);
    }
    Ok(())
}

// Whether the outer wires add up, for every share and mask value, to 1, the product of the two operands; 2, their sum; 3, operand a.
pub fn function_check(
    table: &[u8],
    shares: usize,
    masks: usize,
    function: usize,
) -> Result<bool, Refusal>
    ensures result_value { function_told result ≡ function_check table.now shares masks function }
    ensures function_means { FunctionMeans result table.now shares masks function }
{
    table_check(table, shares, masks)?;
    // kept: the numbers 1 to 3 come from C (calduvren::calduvren_function_check)
    if function < 1 {
        return Err(Refusal::NoSuchFunction);
    }
    if 3 < function {
        return Err(Refusal::NoSuchFunction);
    }
    let outers = sums::sum_of_outers(table);
    let rest = sums::added(outers, functions::function_record(shares, function));
    Ok(functions::is_blank(rest))
}
