// The states of atoms by table position, and what they say of a literal: unset is 0, true 1 and false -1. They are kept in pairs of words, each
// for 64 positions: which atoms are set, and which of them are true. The first pair has the goal atoms. Where a bit stands is this module's alone.
// Literals stand as plain words in arrays, so that one is below 512 is asked where it is read.
ghost use Rattle.std.specs.Prelude.{◌≡◌, ◌/◌, ◌<◌, ◌^◌, eqb};
ghost use Rattle.encoding.specs.Values.{goals_set, bit_in, state_of, value_at, unset_at, word_sign, other_sign, literal_value, true_word, false_word, store_bit, put_state, assigned, unassigned};

use bits::long;

pub type Values = [u64; STATE_WORDS];

pub type Value = i32;

pub const STATE_WORDS: usize = 8;

pub const TRUE: Value = 1;

pub const FALSE: Value = -1;

// Where a literal's atom stands in the table.
fn atom_position(w: u16) -> usize
    requires { w < 512 }
    ensures { (result ≡ w / 2) × (result < 256) }
{
    usize::from(w / 2)
}

// A literal's sign: 1, or -1 where it is negated.
fn sign(w: u16) -> Value
    ensures { result ≡ word_sign w }
{
    1 - 2 * ((w % 2) as Value)
}

// The word of a literal's negation.
pub fn other_sign(w: u16) -> u16
    ensures { result ≡ other_sign w }
{
    if w % 2 == 0 {
        return w + 1;
    }
    w - 1
}

// A state by both bits: twice the one for true less the one for set.
fn state_of(set: u64, truth: u64) -> Value
    requires { (set < 2) × (truth < 2) }
    ensures { result ≡ state_of (eqb set 1) (eqb truth 1) }
{
    2 * (truth as Value) - (set as Value)
}

// A bit of one of the words, as 0 or 1.
fn bit_in(values: &Values, at: usize, c: usize) -> u64
    requires { (at < 8) × (c < 64) }
    ensures { (eqb result 1 ≡ bit_in values.now at c) × (result < 2) }
{
    long::bit(values[at], c)
}

// An atom's state.
fn state_at(values: &Values, at: usize) -> Value
    requires { at < 256 }
    ensures { result ≡ value_at values.now at }
{
    let pair = 2 * (at / 64);
    let next = pair + 1;
    let place = at % 64;
    let set = bit_in(values, pair, place);
    let truth = bit_in(values, next, place);
    state_of(set, truth)
}

// The literal test: the product of a literal's sign and its atom's state, with no branch on either.
pub fn value(values: &Values, w: u16) -> Value
    requires { w < 512 }
    ensures { result ≡ literal_value values.now w }
{
    sign(w) * state_at(values, atom_position(w))
}

pub fn is_true(values: &Values, w: u16) -> bool
    requires { w < 512 }
    ensures { result ≡ true_word values.now w }
{
    value(values, w) == TRUE
}

pub fn is_false(values: &Values, w: u16) -> bool
    requires { w < 512 }
    ensures { result ≡ false_word values.now w }
{
    value(values, w) == FALSE
}

// Whether the atom at a position is unset.
pub fn is_unset(values: &Values, at: usize) -> bool
    requires { at < 256 }
    ensures { result ≡ unset_at values.now at }
{
    let pair = 2 * (at / 64);
    let place = at % 64;
    bit_in(values, pair, place) == 0
}

// The goal atoms that are set, a bit for each.
pub fn goals_set(values: &Values) -> u64
    ensures { (result ≡ goals_set values.now) × (result < 2 ^ 64) }
{
    values[0]
}

// Replaces a bit of one of the words, by 0 or 1.
fn store_bit(values: &mut Values, at: usize, c: usize, b: u64)
    requires { (at < 8) × (c < 64) × (b < 2) }
    ensures { values.new ≡ store_bit values.old at c b }
{
    values[at] = long::replace_bit(values[at], c, b);
}

// Replaces both bits of a position.
fn put_state(values: &mut Values, at: usize, set: u64, truth: u64)
    requires { (at < 256) × (set < 2) × (truth < 2) }
    ensures { values.new ≡ put_state values.old at set truth }
{
    let pair = 2 * (at / 64);
    let next = pair + 1;
    let place = at % 64;
    store_bit(values, pair, place, set);
    store_bit(values, next, place, truth);
}

// Sets a literal: its atom is set, and true unless the literal is negated.
pub fn assign(values: &mut Values, w: u16)
    requires { w < 512 }
    ensures { values.new ≡ assigned values.old w }
{
    let at = atom_position(w);
    let plain = 1 - w % 2;
    put_state(values, at, 1, plain as u64);
}

// Unsets its atom.
pub fn unassign(values: &mut Values, w: u16)
    requires { w < 512 }
    ensures { values.new ≡ unassigned values.old w }
{
    let at = atom_position(w);
    put_state(values, at, 0, 0);
}
