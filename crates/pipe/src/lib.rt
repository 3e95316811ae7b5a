// A sheet read and searched. What a caller makes of what is left is its own.
#![tactic(auto)]

ghost use Rattle.definitions.specs.Questions.{read};
ghost use Rattle.pipe.specs.Reaching.{ReachedAs};

use definitions::Refusal;
use encoding::values::STATE_WORDS;
use encoding::{
    ATOMS, AtomTable, CODES, ClauseStore, LITERALS, LOGGED, RULE_WORDS, STARTS, SYMBOLS,
};
use machine::{Machine, Searched};
use units::trail::Trail;

// Reads the sheet and searches it: what is left of the search, or the first question that is answered no.
// It is called from several places, and stands once in a program.
#[inline(never)]
pub fn search_sheet(sheet: &[u8], budget: u32) -> Result<Searched, Refusal>
    ensures { ReachedAs (read sheet.now) budget result }
{
    let mut arities = [0; SYMBOLS];
    let mut rules = [0; RULE_WORDS];
    let mut machine = Machine {
        store: ClauseStore {
            starts: [0; STARTS],
            literals: [0; LITERALS],
            heads: [0; LOGGED],
            numbers: [0; LOGGED],
        },
        table: AtomTable {
            codes: [0; ATOMS],
            index: [0; CODES],
        },
        trail: Trail {
            values: [0; STATE_WORDS],
            words: [0; ATOMS],
            marks: [0; ATOMS],
        },
    };
    let sizes = sheet::read_sheet(
        sheet,
        &mut arities,
        &mut rules,
        &mut machine.store.starts,
        &mut machine.store.literals,
        &mut machine.table,
    )?;
    let ended = search::search(sizes, budget, &rules, &mut machine);
    Ok(Searched {
        ended,
        given: sizes.clauses,
        arities,
        store: machine.store,
        codes: machine.table.codes,
        values: machine.trail.values,
    })
}
