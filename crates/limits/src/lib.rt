// The limits of files, each named once; specs/Limits.antt has the same.
#![tactic(auto)]

// The longest file, a rule file or a derivation.
pub const MAX_BYTES: usize = 65536;

// The longest rule file for the small reader.
pub const SMALL_BYTES: usize = 4096;

// The bytes of the trailers, and so of the shortest files.
pub const RULE_TRAILER: usize = 16;

pub const DERIVATION_TRAILER: usize = 12;

pub const MAX_VARIABLES: usize = 32;

pub const SMALL_VARIABLES: usize = 16;

// The levels of a prefix of the most variables, 0 to n.
pub const LEVELS: usize = MAX_VARIABLES + 1;

pub const MAX_CLAUSES: usize = 1024;

pub const MAX_LINES: usize = 1024;

pub const MAX_WEIGHT: u64 = 65535;

// 2^60, the largest product of all totals.
pub const MAX_WHOLE: u64 = 1152921504606846976;

// 2^53, the largest whole that is plotted: a double holds each number up to it.
pub const MAX_PLOTTED: u64 = 9007199254740992;
