// Passes over the clauses that hold a literal.
ghost use Rattle.std.specs.Prelude.{◌≡◌, ◌+◌, ◌-◌, ◌*◌, ◌^◌, ◌≤◌, ◌<◌, length};
ghost use Rattle.counters.specs.Counters.{number_asks};
ghost use Rattle.counters.specs.Weights.{one_if};
ghost use Rattle.counters.specs.PlacesKept.{Moved};
ghost use Rattle.counters.specs.Passes.{WordFits, RowFits, WordMoved, first_of};

use crate::{Counters, PLACES, WORDS};
use bits::long;

// The bit, if the number is that of a clause that asks.
#[tactic(auto, unfolding(crate::specs::Counters::number_asks, crate::specs::Weights::one_if))]
pub fn asking_bit(n: u32, bit: u64) -> u64
    ensures { (result ≡ one_if (number_asks n) bit) × (result ≤ bit) }
{
    if n <= 1 { bit } else { 0 }
}

// Changes the numbers of the clauses that are bits of word k, and gives those that ask then. The bits are taken one by one, as `bits::lowest` says.
fn over_word(counts: &mut [u32; PLACES], k: usize, bits: u64, up: u32, down: u32) -> u64
    requires { (k < 10) × (bits < 2 ^ 64) × (length counts.old ≡ 640) × WordFits k bits up down counts.old }
    ensures { WordMoved k bits result up down counts.old counts.new }
{
    let mut m = bits;
    let mut low: u64 = 0;
    while 0 < m {
        let t = long::low_zeros(m);
        let c = 64 * k + t;
        let n = counts[c] + up - down;
        counts[c] = n;
        let bit = 1u64 << t;
        low = low + asking_bit(n, bit);
        m = m - bit;
    }
    low
}

impl Counters {
    // Changes the numbers of the clauses that hold literal x, in the first words of its row.
    pub fn over_row(&mut self, x: u16, words: usize, up: u32, down: u32)
        requires { RowFits x words up down self.old.rows self.old.counts self.old.asking }
        ensures { (self.new.rows ≡ self.old.rows)
            × Moved (first_of self.old.rows x words) up down self.old.counts self.old.asking self.new.counts self.new.asking }
    {
        let first = WORDS * usize::from(x);
        for k in 0..words {
            let bits = self.rows[first + k];
            if bits == 0 {
                continue;
            }
            let low = over_word(&mut self.counts, k, bits, up, down);
            let asking = self.asking[k];
            self.asking[k] = (asking - (asking & bits)) | low;
        }
    }
}
