// Setting and undoing a literal: the counters of the clauses that hold it or its negation. The values are set elsewhere.
// That there are at most 640 clauses and that the counters fit is asked in each: how many clauses there are, and the values and clauses that the
// counters are of, are no fields of `Counters`, so no clause of the struct can speak of them. A literal is a plain word, so its bound is asked too.
ghost use Rattle.std.specs.Prelude.{◌≡◌, ◌+◌, ◌-◌, ◌/◌, ◌≤◌, ◌<◌, take, drop};
ghost use Rattle.encoding.specs.Values.{Values, assigned, unassigned};
ghost use Rattle.units.specs.TrailWords.{cleared};
ghost use Rattle.counters.specs.Setting.{CountersFit, IsUnset, IsSet, StayKept};
ghost use Rattle.counters.specs.Undoing.{Undoable};

use crate::Counters;
use encoding::values;
use units::trail::Trail;

impl Counters {
    // The literal of an unset atom becomes true.
    pub fn set(&mut self, clauses: usize, w: u16)
        requires { (w < 512) × (clauses ≤ 640) × ((values : Values) × IsUnset values w × CountersFit values ((clauses + 63) / 64) self.old) }
        ensures rows { self.new.rows ≡ self.old.rows }
        ensures kept { (values : Values) → IsUnset values w → StayKept ((clauses + 63) / 64) values self.old (assigned values w) self.new }
    {
        let words = (clauses + 63) / 64;
        let other = values::other_sign(w);
        self.over_row(w, words, 256, 0);
        self.over_row(other, words, 0, 1);
    }

    // The literal of an atom that is set as it says becomes unset.
    pub fn undo(&mut self, clauses: usize, w: u16)
        requires { (w < 512) × (clauses ≤ 640) × ((values : Values) × IsSet values w × CountersFit values ((clauses + 63) / 64) self.old) }
        ensures rows { self.new.rows ≡ self.old.rows }
        ensures kept { (values : Values) → IsSet values w → StayKept ((clauses + 63) / 64) values self.old (unassigned values w) self.new }
    {
        let words = (clauses + 63) / 64;
        let other = values::other_sign(w);
        self.over_row(other, words, 1, 0);
        self.over_row(w, words, 0, 256);
    }

    // Undoes the entries of the trail from one place up to another, n: no slice of them, since what is asked of them is said by their places.
    pub fn undo_entries(&mut self, clauses: usize, trail: &Trail, from: usize, n: usize)
        requires { (from ≤ n) × (n ≤ 256) × (clauses ≤ 640)
            × ((values : Values) × Undoable values trail.now.words from n × CountersFit values ((clauses + 63) / 64) self.old) }
        ensures rows { self.new.rows ≡ self.old.rows }
        ensures kept { (values : Values) → Undoable values trail.now.words from n
            → StayKept ((clauses + 63) / 64) values self.old (cleared values (take (n - from) (drop from trail.now.words))) self.new }
    {
        for at in from..n {
            self.undo(clauses, trail.words[at]);
        }
    }
}
