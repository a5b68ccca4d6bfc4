// The shares on which a sum of records depends (scope, "Breaking sets"): the products folded to rows and to columns, and the single bits. These
// functions are in the inner loop of every search.
#![tactic(auto)]

ghost use Rattle.std.specs.Prelude.{◌≡◌, ℕ, ◌≤◌, ◌<◌, ◌+◌, ◌*◌, ◌^◌};
ghost use Rattle.limits.specs.Limits.{max_shares};
ghost use Rattle.basics.specs.Folds.{some, up_to};
ghost use Rattle.wires.specs.Wires.{count_a, count_b, depends_a, depends_b};
ghost use Rattle.records.specs.Words.{bit};
ghost use Rattle.records.specs.Layout.{terms_of};

use records::sums::Sum;

pub mod ones;

// The words of the shares on which a sum depends: bit i for share i.
#[derive(Clone, Copy)]
pub struct ShareWords {
    pub a: u64,
    pub b: u64,
}

// On how many shares of each operand a sum depends.
#[derive(Clone, Copy)]
pub struct ShareCounts {
    pub of_a: usize,
    pub of_b: usize,
}

// Bit k is set where one of the eight bits k, k + stride, k + 2 stride, .. is.
fn gather(word: u64, stride: usize) -> u64
    requires { stride ≤ 8 }
    ensures { (k : ℕ) → bit result k ≡ some (λ j. bit word (stride * j + k)) (up_to 8) }
{
    let two = word | word >> stride;
    let four = two | two >> (2 * stride);
    four | four >> (4 * stride)
}

// Bit i is set where row i of the products, which is byte i, is not 0. The rows' lowest bits are 8 apart; 7 brings them side by side.
fn rows(products: u64) -> u64
    ensures { (result < 2 ^ max_shares) × ((i : ℕ) → i < max_shares → bit result i ≡ some (λ j. bit products (8 * i + j)) (up_to max_shares)) }
{
    let lowest = gather(products, 1) & 0x0101_0101_0101_0101;
    gather(lowest, 7) % 256
}

// Bit j is set where column j of the products, bit j of some byte, is not 0.
fn columns(products: u64) -> u64
    ensures { (result < 2 ^ max_shares) × ((j : ℕ) → j < max_shares → bit result j ≡ some (λ i. bit products (8 * i + j)) (up_to max_shares)) }
{
    gather(products, 8) % 256
}

// The words of the shares on which a sum depends: a product counts for its row in a and for its column in b.
pub fn shares_seen(sum: Sum) -> ShareWords
    ensures a_bound { (result.a < 2 ^ max_shares) × ((i : ℕ) → i < max_shares → bit result.a i ≡ depends_a max_shares (terms_of sum) i) }
    ensures b_bound { (result.b < 2 ^ max_shares) × ((j : ℕ) → j < max_shares → bit result.b j ≡ depends_b max_shares (terms_of sum) j) }
{
    ShareWords {
        a: rows(sum.products) | u64::from(sum.shares_a),
        b: columns(sum.products) | u64::from(sum.shares_b),
    }
}

// On how many shares of a, and on how many of b, a sum depends.
pub fn dependence(sum: Sum) -> ShareCounts
    ensures { (result.of_a ≡ count_a max_shares (terms_of sum)) × (result.of_b ≡ count_b max_shares (terms_of sum)) × (result.of_a ≤ max_shares) × (result.of_b ≤ max_shares) }
{
    let words = shares_seen(sum);
    ShareCounts {
        of_a: words.a.count_ones() as usize,
        of_b: words.b.count_ones() as usize,
    }
}
