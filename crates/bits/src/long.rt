// Words of 64 bits. What stands in lib.rt for words of 32 bits too is no generic function: std has no trait over both whose laws speak of bits,
// and a trait of our own would have each body twice.
ghost use Rattle.std.specs.Prelude.{◌≡◌, true, ◌-◌, ◌/◌, ◌%◌, ◌^◌, ◌≤◌, ◌<◌};
ghost use Rattle.std.specs.Int.Bits.{bit_or};
ghost use Rattle.std.specs.Int.Count.{count_trailing_zeros};
ghost use Rattle.bits.specs.Bits.{has, replace_bit};

// A bit, as 0 or 1.
pub fn bit(m: u64, c: usize) -> u64
    requires { c < 64 }
    ensures { (result ≡ m / 2 ^ c % 2) × (result < 2) }
{
    (m >> c) % 2
}

// The word with a bit replaced, by 0 or 1.
pub fn replace_bit(m: u64, c: usize, b: u64) -> u64
    requires { (c < 64) × (b < 2) }
    ensures { result ≡ replace_bit c b m }
{
    let old = m & (1u64 << c);
    (m - old) | (b << c)
}

// The word of so many ones.
pub fn low_bits(n: usize) -> u64
    requires { n ≤ 64 }
    ensures { result ≡ 2 ^ n - 1 }
{
    if n == 64 {
        return 0xffff_ffff_ffff_ffff;
    }
    (1u64 << n) - 1
}

// How many low bits are 0: 64 of the word 0.
pub fn low_zeros(m: u64) -> usize
    ensures { (result ≡ count_trailing_zeros 64 m) × (result ≤ 64) }
{
    m.trailing_zeros() as usize
}

// Whether a bit is set.
pub fn has_bit(m: u64, c: usize) -> bool
    requires { c < 64 }
    ensures { result ≡ has c m }
{
    (m >> c) % 2 == 1
}

// The word with a bit set.
pub fn with_bit(m: u64, c: usize) -> u64
    requires { c < 64 }
    ensures { result ≡ bit_or m (2 ^ c) }
{
    m | (1u64 << c)
}

// The word without a bit that is set.
pub fn without_bit(m: u64, c: usize) -> u64
    requires { (c < 64) × (has c m ≡ true) }
    ensures { result ≡ m - 2 ^ c }
{
    m - (1u64 << c)
}
