// Sets of numbers, 64 to a word.
ghost use Rattle.std.specs.Prelude.{◌≡◌, ◌*◌, ◌^◌, ◌≤◌, ◌<◌, length};
ghost use Rattle.bits.specs.Bits.{among};
ghost use Rattle.bits.specs.Sets.{IsFirst};

use crate::long;

// Whether a number is in the set.
#[tactic(auto, unfolding(crate::specs::Bits::among))]
pub fn contains(words: &[u64], c: usize) -> bool
    requires { c < 64 * length words.now }
    ensures { result ≡ among words.now c }
{
    long::has_bit(words[c / 64], c % 64)
}

// The first number of the set from one on and below another.
pub fn first_between(words: &[u64], from: usize, end: usize) -> Option<usize>
    requires { (end ≤ 64 * length words.now) × (length words.now < 2 ^ 32) }
    ensures { IsFirst words.now from end result }
{
    // No `for`: it goes on by words, and a word that is 0 is passed over at once.
    let mut i = from;
    while i < end {
        let left = words[i / 64] >> (i % 64);
        if 0 < left {
            let c = i + long::low_zeros(left);
            return if c < end { Some(c) } else { None };
        }
        i = 64 * (i / 64 + 1);
    }
    None
}
