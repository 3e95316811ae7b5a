// Atoms by their codes: the symbol and three constants, each from 0, as the digits of a number.
ghost use Rattle.std.specs.Prelude.{◌≡◌, ◌<◌, ◌/◌, ◌%◌, get_or};
ghost use Rattle.encoding.specs.Lengths.{atom_codes};

// What a code says. An atom of fewer constants has 0 for the others.
#[derive(Clone, Copy, Drop)]
pub struct Atom {
    pub symbol: usize,
    pub constants: [usize; 3],
}

impl Atom {
    // The atom with a code.
    pub fn of(code: u32) -> Atom
        requires { code < atom_codes }
        ensures symbol { (result.symbol ≡ code / 32768) × (result.symbol < 16) }
        ensures first { (get_or result.constants 0 0 ≡ code / 1024 % 32) × (get_or result.constants 0 0 < 32) }
        ensures second { (get_or result.constants 1 0 ≡ code / 32 % 32) × (get_or result.constants 1 0 < 32) }
        ensures third { (get_or result.constants 2 0 ≡ code % 32) × (get_or result.constants 2 0 < 32) }
    {
        let digits = code as usize;
        Atom {
            symbol: digits / 32768,
            constants: [digits / 1024 % 32, digits / 32 % 32, digits % 32],
        }
    }
}
