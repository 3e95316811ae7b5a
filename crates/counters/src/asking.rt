// Step A over the clauses that ask.
ghost use Rattle.std.specs.Prelude.{◌≡◌, List, ℕ, ◌+◌, ◌≤◌, ◌<◌, MatchOption, get_or, length};
ghost use Rattle.units.specs.Units.{clause_at, act_at, act_from, ClausesFit};
ghost use Rattle.units.specs.declared.UnitAct.TheVariants.{Force, Nothing};
ghost use Rattle.counters.specs.Counters.{read_whole, counters, counters_of};
ghost use Rattle.counters.specs.ByNumber.{first_open, may_set_at};

use crate::Counters;
use bits::sets;
use encoding::values::Values;
use encoding::{ClauseStore, values};
use units::UnitAct;

// The place of the first word of a clause that is not false.
fn first_open(values: &Values, clause: &[u16]) -> Option<usize>
    requires { (i : ℕ) → i < length clause.now → get_or clause.now i 0 < 512 }
    ensures { MatchOption result (first_open values.now clause.now ≡ length clause.now)
        (λ at. (first_open values.now clause.now ≡ at) × (at < length clause.now)) }
{
    clause.iter().position(|w| !values::is_false(values, *w))
}

// The clauses as step A reads them: under the values, with the numbers of goal clauses and of goal atoms.
#[derive(Clone, Copy, Drop)]
struct Clauses<'a> {
    values: &'a Values,
    store: &'a ClauseStore,
    given: usize,
    goals: usize,
    ghost few_goals: { goals ≤ 256 },
}

impl Clauses<'_> {
    // Whether clause c may set a literal that so many false ones stand before: where the negated heads are among these, all heads are true.
    #[tactic(auto, unfolding(crate::specs::ByNumber::may_set_at))]
    fn may_set(&self, c: usize, w: u16, before: usize) -> bool
        requires { c < self.now.given + 512 }
        ensures { result ≡ may_set_at self.now.store.now.heads self.now.given self.now.goals c w before }
    {
        if usize::from(w) < 2 * self.goals {
            return true;
        }
        if c < self.given {
            return false;
        }
        usize::from(self.store.heads[c - self.given]) <= before
    }

    // The literal that clause c sets, where one alone of its literals is not false: it is unset.
    fn forced(&self, c: usize) -> Option<u16>
        requires { ClausesFit self.now.store.now.starts self.now.store.now.literals self.now.store.now.heads self.now.given (c + 1)
            × (read_whole self.now.values.now (clause_at self.now.store.now.starts self.now.store.now.literals c) ≡ 1) }
        ensures { let act = act_at self.now.values.now self.now.store.now.starts self.now.store.now.literals self.now.store.now.heads self.now.given self.now.goals c in
            MatchOption result (act ≡ Nothing) (λ w. act ≡ Force w) }
    {
        let clause = self.store.clause(c);
        let before = first_open(self.values, clause)?;
        let w = clause[before];
        self.may_set(c, w, before).then_some(w)
    }
}

impl Counters {
    // Step A: the first clause that is a conflict or sets its one unset literal. Its number tells which: at 0 all its literals are false.
    pub fn next_act(
        &self,
        values: &Values,
        store: &ClauseStore,
        given: usize,
        goals: usize,
        clauses: usize,
    ) -> UnitAct
        requires { (goals ≤ 256) × ClausesFit store.now.starts store.now.literals store.now.heads given clauses
            × ((rows : List ℕ) × (counters rows self.now.counts self.now.asking
            ≡ counters_of values.now (λ c. clause_at store.now.starts store.now.literals c) clauses)) }
        ensures { result ≡ act_from values.now store.now.starts store.now.literals store.now.heads given goals 0 clauses }
    {
        let read = Clauses {
            values,
            store,
            given,
            goals,
        };
        let mut from = 0;
        while let Some(c) = sets::first_between(&self.asking, from, clauses) {
            if self.counts[c] == 0 {
                return UnitAct::Conflict;
            }
            if let Some(w) = read.forced(c) {
                return UnitAct::Force(w);
            }
            from = c + 1;
        }
        UnitAct::Nothing
    }
}
