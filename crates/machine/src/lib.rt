// What the search changes, what it carries beside, and what it comes to. That the machine, the search over arrays as lists, stands for the
// definitions' search is shown in specs.
#![tactic(auto)]

ghost use Rattle.std.specs.Prelude.{◌≡◌};
ghost use Rattle.std.proofs.Common.{Break};
ghost use Rattle.machine.specs.Machine.{ended_with};

use agenda::{Agenda, USERS};
use definitions::Verdict;
use encoding::values::Values;
use encoding::{ATOMS, AtomTable, ClauseStore, RULE_WORDS, SYMBOLS, Sizes};
use masks::Kept;
use std::ops::ControlFlow;
use units::trail::Trail;

// What a search is made of, and what it doesn't change: the rules, by relation those that have a head in it, the sizes, and the budget.
#[derive(Clone, Copy, Drop)]
pub struct Task<'a> {
    pub rules: &'a [u16; RULE_WORDS],
    pub users: &'a [u64; USERS],
    pub sizes: Sizes,
    pub budget: u32,
}

// What it changes. With the table's index this takes over 1 MB, so it is built where it stays.
#[derive(Clone, Copy, Drop)]
pub struct Machine {
    pub store: ClauseStore,
    pub table: AtomTable,
    pub trail: Trail,
}

// What step B keeps beside it: the masks, how many entries of the trail they hold, and the rules that are awake.
#[derive(Clone, Copy, Drop)]
pub struct Upkeep {
    pub held: Kept,
    pub walked: usize,
    pub agenda: Agenda,
}

// How much of the arrays is in use, and both counts. There may be one conflict more than a 32-bit number holds.
#[derive(Clone, Copy, Drop)]
pub struct Run {
    pub atoms: usize,
    pub clauses: usize,
    pub set: usize,
    pub decisions: u32,
    pub conflicts: u64,
}

// What the search comes to.
#[derive(Clone, Copy, Drop)]
pub struct Ended {
    pub verdict: Verdict,
    pub run: Run,
}

// What a step leads to.
pub type Next = ControlFlow<Ended, Run>;

impl Run {
    // The search ends.
    pub fn ends(self, verdict: Verdict) -> Next
        ensures { result ≡ Break (ended_with verdict self) }
    {
        ControlFlow::Break(Ended { verdict, run: self })
    }
}

// What is left of a search: what it came to, the number of goal clauses, and what its listing is made from.
#[derive(Clone, Copy, Drop)]
pub struct Searched {
    pub ended: Ended,
    pub given: usize,
    pub arities: [u8; SYMBOLS],
    pub store: ClauseStore,
    pub codes: [u32; ATOMS],
    pub values: Values,
}
