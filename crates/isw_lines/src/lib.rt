// The lines of the text of `isw_gadget`, each written to a page where the one before it ends. How far that is, is bounded crudely: 16 bytes a part,
// 192 a line, 1,600 for the header lines. So no length of a text stands in a contract, and the page has room for orders up to 10. The functions ask
// for an order that is written and for room on the page: `isw_text` has the entry, which asks for nothing.
#![tactic(auto)]

ghost use Rattle.std.specs.Prelude.{◌≡◌, cond, [], ◌∷◌, ◌++◌, ◌≤◌, ◌<◌, ◌+◌, ◌*◌, eqb, length};
ghost use Rattle.basics.specs.Folds.{up_to};
ghost use Rattle.basics.specs.Quoted.{bytes};
ghost use Rattle.description.specs.Run.{max_text};
ghost use Rattle.description.specs.Grammar.{header_text};
ghost use Rattle.pages.specs.Decimal.{digit_byte, decimal};
ghost use Rattle.pages.specs.Page.{Wrote};
ghost use Rattle.isw_gadget.specs.Pairs.{pairs, pair_number};
ghost use Rattle.isw_gadget.specs.Text.{item, line_text, isw_text};
ghost use Rattle.isw_gadget.specs.Answers.{max_isw_order};

use pages::{write_digit, write_named, write_text};

// The whole text: the header lines, then a line for each share.
pub fn whole_text(page: &mut [u8], order: usize) -> usize
    requires { (length page.old ≡ max_text) × (1 ≤ order) × (order ≤ max_isw_order) }
    ensures wrote { Wrote page.old 0 (isw_text order) page.new result }
    ensures upper_bound { result ≤ max_text }
{
    let mut end = heading(page, order);
    for i in 0..order + 1 {
        end = line(page, end, order, i);
    }
    end
}

// The header lines: masks r0 on, one for each pair of shares.
fn heading(page: &mut [u8], order: usize) -> usize
    requires { (length page.old ≡ max_text) × (1 ≤ order) × (order ≤ max_isw_order) }
    ensures wrote { Wrote page.old 0 (header_text order (up_to (pairs order)) ++ bytes "\n") page.new result }
    ensures upper_bound { result ≤ 1600 }
{
    let first = write_named(page, 0, b"ORDER = ", order);
    let mut end = write_text(page, first, b"\nMASKS = [r0");
    for mask in 1..order * (order + 1) / 2 {
        end = write_named(page, end, b", r", mask);
    }
    write_text(page, end, b"]\n")
}

// Line i: the product of its own shares, then for each other share, rising, what it has for it.
fn line(page: &mut [u8], at: usize, order: usize, i: usize) -> usize
    requires { (at + 256 ≤ length page.old) × (i ≤ order) × (order ≤ max_isw_order) }
    ensures wrote { Wrote page.old at (line_text order i) page.new result }
    ensures upper_bound { result ≤ at + 192 }
{
    let mut end = product(page, at, b"s", i, i);
    for j in 0..order + 1 {
        end = part(page, end, order, i, j);
    }
    write_text(page, end, b"\n")
}

// What line i has for share j: nothing for its own, the pair's mask for one above, the corrected products for one below.
fn part(page: &mut [u8], at: usize, order: usize, i: usize, j: usize) -> usize
    requires { (at + 64 ≤ length page.old) × (i ≤ order) × (j ≤ order) × (order ≤ max_isw_order) }
    ensures wrote { Wrote page.old at (cond (eqb j i) [] (bytes " " ++ item order i j)) page.new result }
    ensures upper_bound { result ≤ at + 16 }
{
    if j == i {
        return at;
    }
    if i < j {
        return write_named(page, at, b" r", pair_number(order, i, j));
    }
    corrected(page, at, pair_number(order, j, i), i, j)
}

// ` ((r sji) sij)` with its mask and numbers put in.
fn corrected(page: &mut [u8], at: usize, mask: usize, i: usize, j: usize) -> usize
    requires { (at + 64 ≤ length page.old) × (mask < 100) × (i < 10) × (j < 10) }
    ensures { Wrote page.old at ((((bytes " ((r" ++ decimal mask) ++ (bytes " s" ++ (digit_byte j ∷ digit_byte i ∷ []))) ++ (bytes ") s" ++ (digit_byte i ∷ digit_byte j ∷ []))) ++ bytes ")") page.new result }
{
    let first = write_named(page, at, b" ((r", mask);
    let second = product(page, first, b" s", j, i);
    let third = product(page, second, b") s", i, j);
    write_text(page, third, b")")
}

// The product of share i of a and share j of b, after some bytes and its letter.
fn product(page: &mut [u8], at: usize, name: &[u8], i: usize, j: usize) -> usize
    requires { (at + length name.now + 2 ≤ length page.old) × (i < 10) × (j < 10) }
    ensures { Wrote page.old at (name.now ++ (digit_byte i ∷ digit_byte j ∷ [])) page.new result }
{
    let first = write_text(page, at, name);
    let second = write_digit(page, first, i);
    write_digit(page, second, j)
}

// The number of a pair's mask: those of the rows before it, then its place in its own.
fn pair_number(order: usize, i: usize, j: usize) -> usize
    requires { (i < j) × (j ≤ order) × (order ≤ max_isw_order) }
    ensures { result ≡ pair_number order i j }
{
    i * (2 * order + 1 - i) / 2 + j - i - 1
}
