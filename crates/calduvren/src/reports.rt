// The pool of reports from many machines, and the writing of a report.
ghost use Rattle.std.specs.Prelude.{◌≡◌, [], ◌∷◌};
ghost use Rattle.pool_answers.specs.Answers.{pool_of};
ghost use Rattle.call_answers.specs.Calls.{got, answered, lent_answered};
ghost use Rattle.call_answers.specs.Meaning.{Kept};
ghost use Rattle.pool_calls.specs.Calls.{filed_call, PoolTells, FilingSays};

// What the reports of many machines come to.
#[unsafe(no_mangle)]
pub extern "C" fn calduvren_pool(
    table: &[u8],
    shares: usize,
    masks: usize,
    notion: usize,
    order: usize,
    reports: &[u8],
    answer: &mut u64,
    size: &mut usize,
    rank: &mut u64,
) -> u64
    ensures rank_after { got result (answer.new ∷ size.new ∷ rank.new ∷ []) [] ≡ answered (pool_of table.now shares masks notion order reports.now) (answer.old ∷ size.old ∷ rank.old ∷ []) [] }
    ensures kept { Kept result (answer.new ∷ size.new ∷ rank.new ∷ []) (answer.old ∷ size.old ∷ rank.old ∷ []) [] [] }
    ensures pool_tells { PoolTells result answer.new size.new rank.new table.now shares masks notion order reports.now }
{
    pool_calls::pool(
        table, shares, masks, notion, order, reports, answer, size, rank,
    )
}

// Writes the report of a range check.
#[unsafe(no_mangle)]
pub extern "C" fn calduvren_filed_report(
    notion: usize,
    size: usize,
    from: u64,
    to: u64,
    clean: u64,
    rank: u64,
    report: &mut [u8],
) -> u64
    ensures report_after { got result [] report.new ≡ lent_answered (filed_call notion size from to clean rank report.old) [] }
    ensures kept { Kept result [] [] report.new report.old }
    ensures filing_says { FilingSays result notion size from to clean rank report.old report.new }
{
    pool_calls::filed_report(notion, size, from, to, clean, rank, report)
}
