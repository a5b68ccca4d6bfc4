// The test that a record names no share and no mask beyond those that there are.
ghost use Rattle.std.specs.Prelude.{◌≡◌, not, ◌&&◌, leb};
ghost use Rattle.limits.specs.Limits.{max_shares, max_masks};
ghost use Rattle.basics.specs.Folds.{some, up_to};
ghost use Rattle.wires.specs.Wires.{beyond};
ghost use Rattle.records.specs.Words.{bit};
ghost use Rattle.records.specs.Layout.{terms_of};

use records::sums::Sum;
use shares::shares_seen;

// Whether a word has no bit from `limit` on.
fn ends_below(word: u64, limit: usize) -> bool
    ensures { result ≡ not (some (λ k. bit word k && leb limit k) (up_to 64)) }
{
    64 <= limit || word >> limit == 0
}

// Whether a sum has no bit beyond the shares and masks. A product beyond is one whose row or column is.
pub fn is_within(sum: Sum, shares: usize, masks: usize) -> bool
    ensures { result ≡ not (beyond max_shares max_masks shares masks (terms_of sum)) }
{
    let words = shares_seen(sum);
    ends_below(words.a, shares) && ends_below(words.b, shares) && ends_below(sum.masks, masks)
}
