// Words as sets of small numbers, of 32 bits here.
#![tactic(auto)]

pub mod long; // long.rt: words of 64 bits
pub mod sets; // sets.rt: sets of numbers, 64 to a word

ghost use Rattle.std.specs.Prelude.{◌≡◌, ◌-◌, ◌^◌, ◌<◌};
ghost use Rattle.std.specs.Int.Bits.{bit_or};
ghost use Rattle.std.specs.Int.Count.{count_trailing_zeros};
ghost use Rattle.bits.specs.Bits.{has};

// Whether a bit is set.
pub fn has_bit(m: u32, c: usize) -> bool
    requires { c < 32 }
    ensures { result ≡ has c m }
{
    (m >> c) % 2 == 1
}

// The word with a bit set.
pub fn with_bit(m: u32, c: usize) -> u32
    requires { c < 32 }
    ensures { result ≡ bit_or m (2 ^ c) }
{
    m | (1u32 << c)
}

// The lowest set bit. The clause on the word itself is for callers that read it from an array. Callers take the bits of a word one by one by this
// and `without_lowest`: an iterator of our own would need its laws for every caller.
pub fn lowest(m: u32) -> usize
    requires { 0 < m }
    ensures { (result ≡ count_trailing_zeros 32 m) × (result < 32) × (m < 2 ^ 32) }
{
    m.trailing_zeros() as usize
}

// The word without its lowest set bit.
pub fn without_lowest(m: u32, c: usize) -> u32
    requires { (0 < m) × (c ≡ count_trailing_zeros 32 m) }
    ensures { result ≡ m - 2 ^ c }
{
    m - (1u32 << c)
}
