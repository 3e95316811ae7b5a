// A signed number as a word.
ghost use Rattle.std.specs.Prelude.{◌≡◌, ◌<◌};
ghost use Rattle.encoding.specs.Signs.{word_of};

// Twice its size, and 1 more where it is negative.
#[tactic(auto, unfolding(crate::specs::Signs::word_of))]
pub fn word_of(negative: bool, size: u16) -> u16
    requires { size < 32768 }
    ensures { result ≡ word_of negative size }
{
    2 * size + u16::from(negative)
}
