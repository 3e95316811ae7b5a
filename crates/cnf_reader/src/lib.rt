// Clauses from a text in DIMACS CNF, by value.
#![tactic(auto)]

mod parts; // parts.rt: bytes, decimals and the header
mod clause_lines; // clause_lines.rt: literals and clause lines

ghost use Rattle.std.specs.Prelude.{◌≡◌};
ghost use Rattle.definitions.specs.Dimacs.{read_cnf};
ghost use Rattle.cnf_reader.specs.CnfArrays.{cnf_read};

use definitions::Question;

// The most clauses that are read, with one place more for where the last one ends; and the most literals.
pub const STARTS: usize = 577;

pub const WORDS: usize = 4608;

// The clauses of a text: how many atoms and clauses there are, where each clause starts among the literals, and the literals, each as twice
// its atom's number and 1 more where it is negated. What is not in use is 0.
#[derive(Clone, Copy, Drop)]
pub struct Cnf {
    pub atoms: u16,
    pub clauses: u16,
    pub starts: [u16; STARTS],
    pub literals: [u16; WORDS],
}

// Reads a text: the clauses, or the first question that is answered no, that on the header or that on what follows.
pub fn read_cnf(text: &[u8]) -> Result<Cnf, Question>
    ensures { result ≡ cnf_read (read_cnf text.now) }
{
    let (header, lines) = parts::header_at(text).ok_or(Question::Header)?;
    let mut cnf = Cnf {
        atoms: header.atoms,
        clauses: header.clauses,
        starts: [0; STARTS],
        literals: [0; WORDS],
    };
    // The arrays are filled where they stand, since one that is handed on in an Option is copied.
    clause_lines::read_clauses(header, lines, &mut cnf.starts, &mut cnf.literals).ok_or(
        Question::ClauseLines,
    )?;
    Ok(cnf)
}
