// The tests that S-resolution makes, on clauses as sets of literals, and the tables over a rule file that they read. A
// set is a 64-bit mask: bit l is literal l.
#![tactic(auto)]

mod blocking;
mod clause;
mod denominator;
mod occurrence;
mod resolvent;

pub use blocking::is_blocking;
pub use clause::level;
pub use denominator::{denominator_between, denominators};
pub use occurrence::{OCCURRENCES, put_clause, put_occurrences};
pub use resolvent::is_resolvent;
