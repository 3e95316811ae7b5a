// How a problem and a search stand in arrays: what several crates read and write alike.
#![tactic(auto)]

pub mod atoms; // atoms.rt: atoms by their codes
mod clauses; // clauses.rt: the words of a clause
pub mod slots; // slots.rt: the code of a literal's atom, and the terms of slots
pub mod values; // values.rt: the values of literals
pub mod words; // words.rt: a signed number as a word

ghost use Rattle.std.specs.Prelude.{◌≡◌, ◌<◌};

// The limits of a sheet, and of a search: its rules, atoms and logged clauses.
pub const CONSTANTS: usize = 32;

pub const SYMBOLS: usize = 16;

pub const ARITY: usize = 3;

pub const VARIABLES: usize = 6;

pub const RULES: usize = 32;

pub const HEADS: usize = 3;

pub const BODY: usize = 2;

pub const KEPT: usize = 2; // heads of a two-way rule that are kept

pub const REWRITTEN: usize = 2; // and that are rewritten

pub const CLAUSES: usize = 64;

pub const CLAUSE_LITERALS: usize = 8;

pub const GOALS: usize = 64;

pub const COLUMNS: usize = 34; // of a line

pub const SEARCH_RULES: usize = 32;

pub const ATOMS: usize = 256;

pub const LOGGED: usize = 512;

// The lengths of the arrays: 22 words a rule; where each of 65 goal clauses and all logged ones starts, and where the last ends; their
// literals, at most 520 and 4 a logged one; a place for each code of an atom, a symbol and three constants.
pub const RULE_WORDS: usize = RULE_SIZE * SEARCH_RULES;

pub const STARTS: usize = 578;

pub const LITERALS: usize = 2568;

pub const CODES: usize = 524288;

// A rule's words: both counts, and five slots of four.
pub const RULE_SIZE: usize = 22;

pub const RULE_SLOTS: usize = 20;

// The slots of a line: four words for each literal of a clause; a rule has fewer.
pub const SLOTS: usize = 4 * CLAUSE_LITERALS;

// The word of constant 1 as a term; those below are the variables, and 0 for no term.
pub const FIRST_CONSTANT: usize = 7;

// How much of each array is in use, and how many rules question 9 counts.
#[derive(Clone, Copy, Drop)]
pub struct Sizes {
    pub constants: usize,
    pub symbols: usize,
    pub rules: usize,
    pub counted: usize,
    pub clauses: usize,
    pub atoms: usize,
    pub literals: usize,
}

// The clauses: where each starts, the words of all their literals, and of each logged one how many negated heads it has, repeats dropped, and
// its rule's number.
#[derive(Clone, Copy, Drop)]
pub struct ClauseStore {
    pub starts: [u16; STARTS],
    pub literals: [u16; LITERALS],
    pub heads: [u8; LOGGED],
    pub numbers: [u8; LOGGED],
}

// The atoms: the code of each position's atom, and the position, from 1, of each code. It takes 1 MB, so it is built where it stays: a literal
// of zeros is filled in place, and no function gives one back.
#[derive(Clone, Copy, Drop)]
pub struct AtomTable {
    pub codes: [u32; ATOMS],
    pub index: [u16; CODES],
}
