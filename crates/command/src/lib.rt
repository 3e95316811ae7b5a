// What the command is to do, by the words behind its name; and how it reads.
#![tactic(auto)]

pub mod input; // input.rt: reading a stream

ghost use Rattle.std.specs.Prelude.{◌≡◌, List, [], ◌∷◌, map, ℕ, length, take};
ghost use Rattle.definitions.specs.Command.{numeral, printed_by, budgeted, order};

use definitions::Order;

// The command's own words.
const BUDGET: &[u8] = b"budget";

const CNF: &[u8] = b"cnf";

// The budget that is not said.
const USUAL: u32 = 1000000;

// The number that a word says, of 32 bits: no sign, and no 0 in front of other digits.
#[tactic(auto, using(crate::proofs::Numerals::numbers))]
fn number(word: &[u8]) -> Option<u32>
    ensures { result ≡ numeral word.now }
{
    match word {
        [b'+', ..] | [b'0', _, ..] => None,
        _ => str::from_utf8(word).ok()?.parse().ok(),
    }
}

// What is printed, by the words behind the budget.
#[tactic(auto, using(crate::proofs::Orders::printed))]
fn printed_by(budget: u32, words: &[&[u8]]) -> Option<Order>
    ensures { result ≡ printed_by budget (map (λ x. x.now) words.now) }
{
    match words {
        [] => Some(Order::Listing(budget)),
        [word] => (*word == CNF).then_some(Order::Cnf(budget)),
        _ => None,
    }
}

// The words behind `budget`.
#[tactic(auto, unfolding(definitions::specs::Command::budgeted))]
fn with_budget(words: &[&[u8]]) -> Option<Order>
    ensures { result ≡ budgeted (map (λ x. x.now) words.now) }
{
    let (budget, rest) = words.split_first()?;
    printed_by(number(budget)?, rest)
}

// The words behind the command's name.
#[tactic(auto, using(crate::proofs::Orders::orders))]
fn ordered(words: &[&[u8]]) -> Option<Order>
    ensures { result ≡ order (map (λ x. x.now) words.now) }
{
    match words {
        [word, rest @ ..] if *word == BUDGET => with_budget(rest),
        _ => printed_by(USUAL, words),
    }
}

// What so many words behind the command's name order, of which the first three are lent: more are too many.
#[tactic(auto, using(crate::proofs::Orders::none_for_four))]
pub fn order_of(count: usize, lent: [&[u8]; 3]) -> Option<Order>
    ensures { (words : List (List ℕ)) → length words ≡ count
        → take 3 words ≡ take count (map (λ x. x.now) lent.entry) → result ≡ order words }
{
    ordered(lent.get(..count)?)
}
