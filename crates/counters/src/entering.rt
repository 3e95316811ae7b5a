// A clause is entered: its bits in the rows of its words, its number, and whether it asks.
ghost use Rattle.std.specs.Prelude.{◌≡◌, List, ℕ, ◌+◌, ◌≤◌, ◌<◌, length, get_or, false};
ghost use Rattle.counters.specs.Weights.{weighs};
ghost use Rattle.counters.specs.Counters.{counters_of, row_at};
ghost use Rattle.encoding.specs.Lengths.{literal_array};
ghost use Rattle.units.specs.Units.{clause_at, ClausesFit};
ghost use Rattle.counters.specs.Entering.{Entering};

use crate::{Counters, WORDS, passes};
use bits::long;
use encoding::values::Values;
use encoding::{ClauseStore, values};

// What a literal weighs: 257 a true one, 1 an unset one, nothing a false one.
#[tactic(auto, unfolding(crate::specs::Weights::weighs, crate::specs::Weights::weight, encoding::specs::Values::is_false_value, encoding::specs::Values::is_true_value, encoding::specs::Values::same_value))]
fn weight_of(values: &Values, w: u16) -> u32
    requires { w < 512 }
    ensures { (result ≡ weighs values.now w) × (result ≤ 257) }
{
    match values::value(values, w) {
        values::FALSE => 0,
        values::TRUE => 257,
        _ => 1,
    }
}

impl Counters {
    // Puts the bits of clause c into the rows of its words, and gives its number. A repeated word has its bit already.
    fn enter_words(&mut self, values: &Values, clause: &[u16], c: usize) -> u32
        requires { (c < 640) × (length clause.now ≤ literal_array) × ((i : ℕ) → i < length clause.now → get_or clause.now i 0 < 512)
            × ((x : ℕ) → x < 512 → row_at self.old.rows x c ≡ false) }
        ensures { Entering (weighs values.now) c result clause.now self.old.rows self.new.rows
            × (self.new.counts ≡ self.old.counts) × (self.new.asking ≡ self.old.asking) }
    {
        let k = c / 64;
        let s = c % 64;
        let mut n = 0;
        for w in clause {
            let at = WORDS * usize::from(*w) + k;
            let old = self.rows[at];
            if long::has_bit(old, s) {
                continue;
            }
            self.rows[at] = old + (1u64 << s);
            n += weight_of(values, *w);
        }
        n
    }

    // Enters clause c behind the clauses before it.
    pub fn enter(&mut self, values: &Values, clause: &[u16], c: usize)
        requires { (c < 640) × (length clause.now ≤ literal_array) × ((i : ℕ) → i < length clause.now → get_or clause.now i 0 < 512)
            × ((clauses : ℕ → List ℕ) × (self.old ≡ counters_of values.now clauses c)) }
        ensures { (clauses : ℕ → List ℕ) → clauses c ≡ clause.now → self.old ≡ counters_of values.now clauses c
            → self.new ≡ counters_of values.now clauses (c + 1) }
    {
        let n = self.enter_words(values, clause, c);
        self.counts[c] = n;
        self.asking[c / 64] += passes::asking_bit(n, 1u64 << (c % 64));
    }

    // Enters the first clauses, where none is.
    pub fn enter_all(&mut self, values: &Values, store: &ClauseStore, clauses: usize)
        requires { ((heads : List ℕ) × (given : ℕ) × ClausesFit store.now.starts store.now.literals heads given clauses)
            × (self.old ≡ counters_of values.now (λ c. clause_at store.now.starts store.now.literals c) 0) }
        ensures { self.new ≡ counters_of values.now (λ c. clause_at store.now.starts store.now.literals c) clauses }
    {
        for c in 0..clauses {
            self.enter(values, store.clause(c), c);
        }
    }
}
