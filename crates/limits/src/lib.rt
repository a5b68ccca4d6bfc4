// The numbers that the scope fixes and that tables, sets and texts share: each has one name here, and one in the definitions.
#![tactic(auto)]

// Shares of an operand.
pub const MIN_SHARES: usize = 2;

pub const MAX_SHARES: usize = 8;

// An order is below the number of shares.
pub const MAX_ORDER: usize = MAX_SHARES - 1;

pub const MAX_MASKS: usize = 64;

pub const MAX_WIRES: usize = 512;

// The bytes of a wire's record.
pub const RECORD_BYTES: usize = 24;

pub const MAX_TABLE_BYTES: usize = RECORD_BYTES * MAX_WIRES;

// The largest size of a set.
pub const MAX_SIZE: usize = 7;

// How many sizes there are, 0 among them: a row of the table of counts.
pub const SIZES: usize = MAX_SIZE + 1;

// A row of counts for each number of wires, 0 among them.
pub const COUNTS: usize = SIZES * (MAX_WIRES + 1);
