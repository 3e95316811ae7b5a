// What stands at the front of a text: bytes, decimals and the header. Each function hands back what it found and the bytes behind it.
ghost use Rattle.std.specs.Prelude.{◌≡◌, ℕ, ◌+◌, ◌*◌, ◌≤◌, MatchOption, IfSome};
ghost use Rattle.definitions.specs.Questions.{no, yes};
ghost use Rattle.definitions.specs.Dimacs.{front, expects, more_digits, decimal_at, header_at};
ghost use Rattle.cnf_reader.specs.Parts.{number_at, header_of};

// How many atoms and clauses the header names.
#[derive(Clone, Copy, Drop)]
pub struct Header {
    pub atoms: u16,
    pub clauses: u16,
}

// The most atoms and clauses that a header may name.
const ATOMS: u16 = 256;

const CLAUSES: u16 = 576;

// The bytes behind these, where they stand at the front.
pub fn behind<'a>(text: &'a [u8], bytes: &[u8]) -> Option<&'a [u8]>
    ensures { (q : ℕ) → MatchOption result (expects q bytes.now text.now ≡ no q) (λ rest. expects q bytes.now text.now ≡ yes rest.now) }
{
    text.strip_prefix(bytes)
}

// With the digit at the front, if one stands there.
#[tactic(auto, using(crate::proofs::Fronts::digits))]
fn with_digit(size: u16, text: &[u8]) -> (u16, &[u8])
    requires { size ≤ 99 }
    ensures reads { front result.0 result.1.now ≡ more_digits 1 size text.now }
    ensures small { result.0 ≤ size * 10 + 9 }
{
    match text.split_first() {
        Some((b, rest)) if b.is_ascii_digit() => (size * 10 + u16::from(*b - b'0'), rest),
        _ => (size, text),
    }
}

// 0, or a number of at most three digits that doesn't begin with 0.
#[tactic(auto, using(crate::proofs::Fronts::decimals))]
fn decimal_at(text: &[u8]) -> Option<(u16, &[u8])>
    ensures reads { (q : ℕ) → MatchOption result (decimal_at q text.now ≡ no q) (λ d. decimal_at q text.now ≡ yes (front d.0 d.1.now)) }
    ensures small { IfSome result (λ d. d.0 ≤ 999) }
{
    let (b, rest) = text.split_first()?;
    if !b.is_ascii_digit() {
        return None;
    }
    if *b == b'0' {
        return Some((0, rest));
    }
    let (size, rest) = with_digit(u16::from(*b - b'0'), rest);
    Some(with_digit(size, rest))
}

// A decimal between these limits, and the byte that ends it.
pub fn number_at(text: &[u8], least: u16, most: u16, end: u8) -> Option<(u16, &[u8])>
    ensures reads { (q : ℕ) → MatchOption result (number_at q least most end text.now ≡ no q) (λ d. number_at q least most end text.now ≡ yes (front d.0 d.1.now)) }
    ensures small { IfSome result (λ d. (d.0 ≤ most) × (d.0 ≤ 999)) }
{
    let (size, rest) = decimal_at(text)?;
    if size < least || most < size {
        return None;
    }
    Some((size, behind(rest, &[end])?))
}

// The line that names how many atoms and clauses there are.
pub fn header_at(text: &[u8]) -> Option<(Header, &[u8])>
    ensures reads { MatchOption result (header_at text.now ≡ no 21) (λ h. header_at text.now ≡ yes (front (header_of h.0) h.1.now)) }
    ensures small { IfSome result (λ h. h.0.clauses ≤ 576) }
{
    let rest = behind(text, b"p cnf ")?;
    let (atoms, rest) = number_at(rest, 0, ATOMS, b' ')?;
    let (clauses, rest) = number_at(rest, 0, CLAUSES, b'\n')?;
    Some((Header { atoms, clauses }, rest))
}
