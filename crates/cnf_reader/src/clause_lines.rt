// The clause lines of a text, into arrays of words.
ghost use Rattle.std.specs.Prelude.{◌≡◌, ◌+◌, ◌≤◌, MatchOption, IfSome};
ghost use Rattle.definitions.specs.Questions.{no};
ghost use Rattle.definitions.specs.Dimacs.{front, minus_at, literal_at, clause_line_at, clauses_at};
ghost use Rattle.cnf_reader.specs.Lines.{LiteralRead, LineHeld, ClausesHeld};

use crate::parts::Header;
use crate::{STARTS, WORDS, parts};
use encoding::words;

// The most literals of a clause.
const CLAUSE_LITERALS: usize = 8;

// Whether a minus stands at the front, and the bytes behind it.
#[tactic(auto, using(crate::proofs::ClauseLines::signs))]
fn sign_at(text: &[u8]) -> (bool, &[u8])
    ensures { front result.0 result.1.now ≡ minus_at text.now }
{
    match text.split_first() {
        Some((b'-', rest)) => (true, rest),
        _ => (false, text),
    }
}

// A literal in range as a word, and the bytes behind its blank.
fn literal_at(text: &[u8], atoms: u16) -> Option<(u16, &[u8])>
    ensures { MatchOption result (literal_at atoms text.now ≡ no 22) (λ l. LiteralRead (literal_at atoms text.now) l.0 l.1.now) }
{
    let (negative, rest) = sign_at(text);
    let (size, rest) = parts::number_at(rest, 1, atoms, b' ')?;
    Some((words::word_of(negative, size), rest))
}

// A clause line, its words from `used` on: where they end, and the bytes behind the line.
fn read_line<'a>(
    text: &'a [u8],
    atoms: u16,
    literals: &mut [u16; WORDS],
    used: usize,
) -> Option<(usize, &'a [u8])>
    requires { used + 8 ≤ 4608 }
    ensures reads { MatchOption result (clause_line_at atoms 8 text.now ≡ no 22)
        (λ l. LineHeld (clause_line_at atoms 8 text.now) used literals.old l.0 l.1.now literals.new) }
    ensures room { IfSome result (λ l. l.0 ≤ used + 8) }
{
    let mut rest = text;
    for end in used..used + CLAUSE_LITERALS {
        if rest.starts_with(b"0") {
            return Some((end, parts::behind(rest, b"0\n")?));
        }
        let (word, behind) = literal_at(rest, atoms)?;
        literals[end] = word;
        rest = behind;
    }
    Some((used + CLAUSE_LITERALS, parts::behind(rest, b"0\n")?))
}

// As many clause lines as the header names, and nothing behind them: where each clause starts, and the words of all.
pub fn read_clauses(
    header: Header,
    text: &[u8],
    starts: &mut [u16; STARTS],
    literals: &mut [u16; WORDS],
) -> Option<()>
    requires { header.clauses ≤ 576 }
    ensures { MatchOption result (clauses_at header.atoms header.clauses text.now ≡ no 22)
        (λ done. ClausesHeld (clauses_at header.atoms header.clauses text.now) 0 0 starts.old literals.old starts.new literals.new) }
{
    let Header { atoms, clauses } = header;
    let mut rest = text;
    let mut used = 0;
    for i in 0..usize::from(clauses) {
        starts[i] = used as u16;
        (used, rest) = read_line(rest, atoms, literals, used)?;
    }
    starts[usize::from(clauses)] = used as u16;
    if !rest.is_empty() {
        return None;
    }
    Some(())
}
