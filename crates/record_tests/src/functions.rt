// The functions of the function check as records, and the test that no bit is left of a sum (scope, "Breaking sets", last paragraph).
ghost use Rattle.std.specs.Prelude.{◌≡◌, ◌≤◌};
ghost use Rattle.limits.specs.Limits.{max_shares, max_masks};
ghost use Rattle.wires.specs.Function.{function_terms, blank};
ghost use Rattle.records.specs.Layout.{terms_of};
ghost use Rattle.record_tests.specs.Cut.{FirstShares};

use records::sums::{Sum, nothing};

// All products of the first n shares of a and the first n of b, at place n.
const FIRST_PRODUCTS: [u64; 9] = [
    0,
    0x01,
    0x0303,
    0x07_0707,
    0x0f0f_0f0f,
    0x1f_1f1f_1f1f,
    0x3f3f_3f3f_3f3f,
    0x7f_7f7f_7f7f_7f7f,
    0xffff_ffff_ffff_ffff,
];

// The first n shares, at place n.
const FIRST_SHARES: [u8; 9] = [0, 0x01, 0x03, 0x07, 0x0f, 0x1f, 0x3f, 0x7f, 0xff];

// The record of a function of operands with so many shares: for 1 all products, for 2 all shares of a and of b, for 3 those of a.
// kept: the numbers 1 to 3 come from C and stand in `function_terms`
pub fn function_record(shares: usize, function: usize) -> Sum
    requires { shares ≤ max_shares }
    ensures { FirstShares shares (function_terms function) (terms_of result) }
{
    if function == 1 {
        return Sum {
            products: FIRST_PRODUCTS[shares],
            masks: 0,
            shares_a: 0,
            shares_b: 0,
        };
    }
    let all = FIRST_SHARES[shares];
    if function == 2 {
        return Sum {
            products: 0,
            masks: 0,
            shares_a: all,
            shares_b: all,
        };
    }
    Sum {
        products: 0,
        masks: 0,
        shares_a: all,
        shares_b: 0,
    }
}

// Whether no bit of a sum is set.
pub fn is_blank(sum: Sum) -> bool
    ensures { result ≡ blank max_shares max_masks (terms_of sum) }
{
    sum == nothing()
}
