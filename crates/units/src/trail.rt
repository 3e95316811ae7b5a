// The trail: what is set, in the order of setting, and what a conflict undoes.
ghost use Rattle.std.specs.Prelude.{◌≡◌, ℕ, ◌+◌, ◌≤◌, ◌<◌, get_or, MatchOption};
ghost use Rattle.units.specs.TrailWords.{latest_decision, first_unset};
ghost use Rattle.units.specs.TrailArrays.{mark_number, set_at, undo_from};

use bits::long;
use encoding::values::Values;
use encoding::{ATOMS, values};

// Why a literal is set: by a clause, by a decision that stands at true, by one that was set to false. The trail notes it as a number.
#[derive(Clone, Copy, Drop)]
pub enum Mark {
    Forced = 0,
    Decided = 1,
    Flipped = 2,
}

impl From<Mark> for u8 {
    ghost from_gives = { λ why number. number ≡ mark_number why };

    fn from(why: Mark) -> u8 {
        why as u8
    }
}

// The state of each position's atom, and of each entry of the trail its literal's word and why it was set. The marks are numbers, not `Mark`s,
// since what holds of a trail, `TrailStands`, is said of their numbers, and any number may be put.
#[derive(Clone, Copy, Drop)]
pub struct Trail {
    pub values: Values,
    pub words: [u16; ATOMS],
    pub marks: [u8; ATOMS],
}

impl Trail {
    // Sets a literal behind the first n entries, with the number by which the trail notes why. Any number is taken.
    #[tactic(auto, unfolding(crate::specs::TrailArrays::set_at))]
    pub fn put(&mut self, n: usize, w: u16, mark: u8)
        requires { (n < 256) × (w < 512) }
        ensures { self.new ≡ set_at n w mark self.old }
    {
        values::assign(&mut self.values, w);
        self.words[n] = w;
        self.marks[n] = mark;
    }

    // Sets a literal, with why it is set, behind the first n entries.
    pub fn set(&mut self, n: usize, w: u16, why: Mark)
        requires { (n < 256) × (w < 512) }
        ensures { self.new ≡ set_at n w (mark_number why) self.old }
    {
        self.put(n, w, u8::from(why));
    }

    // The place of the latest decision that stands at true, among the first n entries.
    pub fn latest_decision(&self, n: usize) -> Option<usize>
        requires { n ≤ 256 }
        ensures { MatchOption result (latest_decision self.now.marks n ≡ 0) (λ at. (latest_decision self.now.marks n ≡ at + 1) × (at < n)) }
    {
        for at in (0..n).rev() {
            if self.marks[at] == u8::from(Mark::Decided) {
                return Some(at);
            }
        }
        None
    }

    // Unsets the entries from one place up to another.
    pub fn undo(&mut self, from: usize, n: usize)
        requires { (from ≤ n) × (n ≤ 256) × ((i : ℕ) → i < n → get_or self.old.words i 0 < 512) }
        ensures { self.new ≡ undo_from from n self.old }
    {
        for at in from..n {
            let w = self.words[at];
            values::unassign(&mut self.values, w);
        }
    }

    // The first unset goal atom: the low zeros of the unset word, masked by the number of goal atoms, are 64 where all are set.
    pub fn first_unset(&self, goals: usize) -> Option<usize>
        requires { goals ≤ 64 }
        ensures { MatchOption result (first_unset self.now.values 0 goals ≡ goals) (λ at. (first_unset self.now.values 0 goals ≡ at) × (at < goals)) }
    {
        let unset = !values::goals_set(&self.values);
        let a = long::low_zeros(unset & long::low_bits(goals));
        (a < 64).then_some(a)
    }
}
