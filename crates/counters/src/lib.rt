// Counters of clauses, so that step A reads only clauses that ask for something: which clauses hold a literal, as rows of bits; for each
// clause how many of its different literals are not false, and 256 for each that is true; and the clauses that ask, as bits.
#![tactic(auto)]

pub mod asking; // asking.rt: step A over the clauses that ask
pub mod entering; // entering.rt: a new clause
pub mod kept; // kept.rt: setting and undoing
mod passes; // passes.rt: passes over the clauses that hold a literal

// A place for each bit of ten words: 65 goal clauses, 512 logged ones and 63 that no clause has. Ten words a literal.
pub const WORDS: usize = 10;

pub const PLACES: usize = 640;

pub const ROWS: usize = 5120;

// The rows of bits, the clauses' numbers, and the bits of those that ask.
#[derive(Clone, Copy, Drop)]
pub struct Counters {
    // bit c % 64 of word 10 * w + c / 64: clause c holds word w
    pub rows: [u64; ROWS],
    // the number of clause c
    pub counts: [u32; PLACES],
    // bit c % 64 of word c / 64: clause c asks
    pub asking: [u64; WORDS],
}
