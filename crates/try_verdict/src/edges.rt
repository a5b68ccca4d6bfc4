// Calls on both sides of every limit, several wrong things at once, and a table of 512 wires.
ghost use Rattle.std.specs.Prelude.{◌≤◌};

use crate::{NI, ROOM, SNI, tell_range, tell_verdict, title};
use limits::RECORD_BYTES;
use std::io;

const SMALL: usize = 72;

const LARGE: usize = 12288;

// The sets of seven out of 512 wires.
const SEVENS: u64 = 1756185841659392;

const SHARES: usize = 3;

const MASKS: usize = 1;

pub fn all(rt: &impl Print) -> io::Result<()> {
    share_limits(rt)?;
    mask_limits(rt)?;
    length_limits(rt)?;
    record_limits(rt)?;
    notion_limits(rt)?;
    order_limits(rt)?;
    size_limits(rt)?;
    room_limits(rt)?;
    bound_limits(rt)?;
    verdict_order(rt)?;
    range_order(rt)?;
    large(rt)
}

// Three wires: a0, outer; r0; r0 + a0 + a1 + a2.
fn small() -> [u8; SMALL] {
    let mut table = [0u8; SMALL];
    table[16] = 1;
    table[18] = 1;
    table[32] = 1;
    table[56] = 1;
    table[64] = 7;
    table
}

fn small_verdict(rt: &impl Print, notion: usize, order: usize, room: usize) -> io::Result<()>
    requires { room ≤ 9 }
{
    let table = small();
    tell_verdict(rt, &table, SHARES, MASKS, notion, order, room)
}

fn small_range(
    rt: &impl Print,
    notion: usize,
    size: usize,
    from: u64,
    to: u64,
    room: usize,
) -> io::Result<()>
    requires { room ≤ 9 }
{
    let table = small();
    tell_range(rt, &table, SHARES, MASKS, notion, size, from, to, room)?;
    Ok(())
}

fn small_title(rt: &impl Print) -> io::Result<()> {
    let table = small();
    title(rt, &table, SHARES, MASKS)
}

// Both operations, with nothing to turn down but the table.
fn both(rt: &impl Print, table: &[u8], shares: usize, masks: usize) -> io::Result<()> {
    title(rt, table, shares, masks)?;
    tell_verdict(rt, table, shares, masks, NI, 1, ROOM)?;
    tell_range(rt, table, shares, masks, NI, 1, 0, 1, ROOM)?;
    Ok(())
}

fn share_limits(rt: &impl Print) -> io::Result<()> {
    let table = [0u8; RECORD_BYTES];
    both(rt, &table, 0, 64)?;
    both(rt, &table, 1, 64)?;
    both(rt, &table, 2, 64)?;
    both(rt, &table, 8, 64)?;
    both(rt, &table, 9, 64)?;
    both(rt, &table, usize::MAX, 64)
}

fn mask_limits(rt: &impl Print) -> io::Result<()> {
    let table = small();
    both(rt, &table, 3, 0)?;
    both(rt, &table, 3, 1)?;
    both(rt, &table, 3, 64)?;
    both(rt, &table, 3, 65)?;
    both(rt, &table, 3, usize::MAX)
}

fn length_limits(rt: &impl Print) -> io::Result<()> {
    zeros(rt, 0)?;
    zeros(rt, 23)?;
    zeros(rt, 24)?;
    zeros(rt, 25)?;
    zeros(rt, 12287)?;
    zeros(rt, 12288)?;
    zeros(rt, 12289)?;
    zeros(rt, 12312)
}

fn zeros(rt: &impl Print, length: usize) -> io::Result<()>
    requires { length ≤ 12312 }
{
    let table = [0u8; 12312];
    both(rt, &table[0..length], 8, 64)
}

// A share beyond, a mask beyond and byte 18, each in a record of its own.
fn record_limits(rt: &impl Print) -> io::Result<()> {
    let mut table = small();
    both(rt, &table, 2, 1)?;
    table[18] = 2;
    both(rt, &table, 3, 1)?;
    table[18] = 255;
    both(rt, &table, 3, 1)?;
    table[18] = 0;
    both(rt, &table, 3, 1)?;
    table[39] = 128;
    both(rt, &table, 3, 63)?;
    both(rt, &table, 3, 64)
}

fn notion_limits(rt: &impl Print) -> io::Result<()> {
    small_title(rt)?;
    each_notion(rt, 0)?;
    each_notion(rt, 1)?;
    each_notion(rt, 2)?;
    each_notion(rt, 3)?;
    each_notion(rt, usize::MAX)
}

fn each_notion(rt: &impl Print, notion: usize) -> io::Result<()> {
    small_verdict(rt, notion, 2, ROOM)?;
    small_range(rt, notion, 2, 0, 3, ROOM)
}

fn order_limits(rt: &impl Print) -> io::Result<()> {
    small_title(rt)?;
    orders(rt, NI)?;
    orders(rt, SNI)?;
    let table = small();
    title(rt, &table, 8, 64)?;
    tell_verdict(rt, &table, 8, 64, NI, 7, ROOM)?;
    tell_verdict(rt, &table, 8, 64, NI, 8, ROOM)
}

fn orders(rt: &impl Print, notion: usize) -> io::Result<()> {
    small_verdict(rt, notion, 0, ROOM)?;
    small_verdict(rt, notion, 1, ROOM)?;
    small_verdict(rt, notion, 2, ROOM)?;
    small_verdict(rt, notion, 3, ROOM)?;
    small_verdict(rt, notion, usize::MAX, ROOM)
}

// Sizes above the number of wires are no error, and have no set.
fn size_limits(rt: &impl Print) -> io::Result<()> {
    small_title(rt)?;
    small_range(rt, NI, 3, 0, 1, ROOM)?;
    small_range(rt, NI, 4, 0, 0, ROOM)?;
    small_range(rt, NI, 7, 0, 0, ROOM)?;
    small_range(rt, NI, 8, 0, 0, ROOM)?;
    small_range(rt, NI, usize::MAX, 0, 0, ROOM)
}

// A buffer is measured by the order, also where the set would have room in it.
fn room_limits(rt: &impl Print) -> io::Result<()> {
    small_title(rt)?;
    small_verdict(rt, NI, 1, 0)?;
    small_verdict(rt, NI, 1, 1)?;
    small_verdict(rt, NI, 2, 1)?;
    small_verdict(rt, NI, 2, 2)?;
    small_verdict(rt, SNI, 2, 1)?;
    small_verdict(rt, SNI, 2, 2)?;
    small_range(rt, SNI, 0, 0, 1, 0)?;
    small_range(rt, SNI, 1, 0, 3, 0)?;
    small_range(rt, SNI, 1, 0, 3, 1)?;
    small_range(rt, SNI, 2, 0, 3, 1)?;
    small_range(rt, SNI, 2, 0, 3, 2)?;
    small_range(rt, SNI, 7, 0, 0, 6)?;
    small_range(rt, SNI, 7, 0, 0, 7)
}

// Size 2 has three sets, size 0 one, size 4 none.
fn bound_limits(rt: &impl Print) -> io::Result<()> {
    small_title(rt)?;
    small_range(rt, NI, 2, 0, 3, ROOM)?;
    small_range(rt, NI, 2, 0, 4, ROOM)?;
    small_range(rt, NI, 2, 2, 1, ROOM)?;
    small_range(rt, NI, 2, 1, 2, ROOM)?;
    small_range(rt, NI, 2, 3, 3, ROOM)?;
    small_range(rt, NI, 2, 4, 4, ROOM)?;
    small_range(rt, NI, 2, 4, 3, ROOM)?;
    small_range(rt, NI, 2, 0, u64::MAX, ROOM)?;
    small_range(rt, NI, 2, u64::MAX, 0, ROOM)?;
    small_range(rt, NI, 2, u64::MAX, u64::MAX, ROOM)?;
    small_range(rt, NI, 2, 0, 4294967296, ROOM)?;
    small_range(rt, NI, 0, 0, 1, ROOM)?;
    small_range(rt, NI, 0, 1, 1, ROOM)?;
    small_range(rt, NI, 0, 0, 2, ROOM)?;
    small_range(rt, NI, 4, 0, 1, ROOM)
}

// All at once, then one after the other put right, in the scope's order.
fn verdict_order(rt: &impl Print) -> io::Result<()> {
    let ragged = [2u8; 71];
    let beyond = [2u8; SMALL];
    let table = small();
    verdict_titled(rt, &ragged, 9, MASKS, 3, usize::MAX)?;
    verdict_titled(rt, &ragged, SHARES, 65, 3, usize::MAX)?;
    verdict_titled(rt, &ragged, SHARES, MASKS, 3, usize::MAX)?;
    verdict_titled(rt, &beyond, SHARES, MASKS, 3, usize::MAX)?;
    verdict_titled(rt, &table, SHARES, MASKS, 3, usize::MAX)?;
    verdict_titled(rt, &table, SHARES, MASKS, NI, usize::MAX)?;
    verdict_titled(rt, &table, SHARES, MASKS, NI, 2)?;
    small_verdict(rt, NI, 2, 2)
}

// A verdict with no room at all.
fn verdict_titled(
    rt: &impl Print,
    table: &[u8],
    shares: usize,
    masks: usize,
    notion: usize,
    order: usize,
) -> io::Result<()> {
    title(rt, table, shares, masks)?;
    tell_verdict(rt, table, shares, masks, notion, order, 0)
}

fn range_order(rt: &impl Print) -> io::Result<()> {
    let ragged = [2u8; 71];
    let beyond = [2u8; SMALL];
    let table = small();
    range_titled(rt, &ragged, 9, MASKS, 3, 8)?;
    range_titled(rt, &ragged, SHARES, 65, 3, 8)?;
    range_titled(rt, &ragged, SHARES, MASKS, 3, 8)?;
    range_titled(rt, &beyond, SHARES, MASKS, 3, 8)?;
    range_titled(rt, &table, SHARES, MASKS, 3, 8)?;
    range_titled(rt, &table, SHARES, MASKS, NI, 8)?;
    range_titled(rt, &table, SHARES, MASKS, NI, 2)?;
    small_range(rt, NI, 2, 5, 4, 2)?;
    small_range(rt, NI, 2, 0, 3, 2)
}

// A range check with no room at all, and bounds that fall.
fn range_titled(
    rt: &impl Print,
    table: &[u8],
    shares: usize,
    masks: usize,
    notion: usize,
    size: usize,
) -> io::Result<()> {
    title(rt, table, shares, masks)?;
    tell_range(rt, table, shares, masks, notion, size, 5, 4, 0)?;
    Ok(())
}

// 512 wires on eight shares, first with wire 400 at 0.
fn large(rt: &impl Print) -> io::Result<()> {
    large_with(rt, 0)?;
    large_with(rt, 96)
}

// Wire 5 is r0, 300 is a6 and outer, 400 has some shares of b, 511 is r0 and every share of a; all others are 0.
fn large_with(rt: &impl Print, shares_of_b: u8) -> io::Result<()> {
    let mut table = [0u8; LARGE];
    table[128] = 1;
    table[7216] = 64;
    table[7218] = 1;
    table[9617] = shares_of_b;
    table[12272] = 1;
    table[12280] = 255;
    large_calls(rt, &table)
}

// The last sets of seven wires all have wire 511; of the last sixty the first seven lack wire 5, and the next has it.
fn large_calls(rt: &impl Print, table: &[u8]) -> io::Result<()> {
    title(rt, table, 8, 1)?;
    tell_verdict(rt, table, 8, 1, NI, 1, ROOM)?;
    tell_verdict(rt, table, 8, 1, NI, 2, ROOM)?;
    tell_verdict(rt, table, 8, 1, SNI, 1, ROOM)?;
    tell_range(rt, table, 8, 1, NI, 1, 0, 512, ROOM)?;
    tell_range(rt, table, 8, 1, NI, 7, SEVENS - 60, SEVENS - 53, ROOM)?;
    tell_range(rt, table, 8, 1, NI, 7, SEVENS - 60, SEVENS, ROOM)?;
    tell_range(rt, table, 8, 1, NI, 7, SEVENS, SEVENS, ROOM)?;
    tell_range(rt, table, 8, 1, NI, 7, SEVENS, SEVENS + 1, ROOM)?;
    Ok(())
}
