// Literals as slots of four words: the code of an atom, and the terms of slots.
ghost use Rattle.std.specs.Prelude.{◌≡◌, ◌<◌};
ghost use Rattle.encoding.specs.Lengths.{atom_codes};
ghost use Rattle.encoding.specs.Encoding.{code_of};
ghost use Rattle.encoding.specs.Slots.{has_term};

// The code of an atom: its symbol and three constants, each from 0.
pub fn atom_code(symbol: usize, a: usize, b: usize, c: usize) -> usize
    requires { (symbol < 16) × (a < 32) × (b < 32) × (c < 32) }
    ensures { (result ≡ code_of symbol a b c) × (result < atom_codes) }
{
    ((symbol * 32 + a) * 32 + b) * 32 + c
}

// Whether the word stands among the terms of the slots.
#[tactic(auto, unfolding(crate::specs::Slots::has_term))]
pub fn has_term(slots: &[u16], v: u16) -> bool
    ensures { result ≡ has_term v slots.now }
{
    let mut left = slots;
    while let [_, a, b, c, rest @ ..] = left {
        if *a == v || *b == v || *c == v {
            return true;
        }
        left = rest;
    }
    false
}
