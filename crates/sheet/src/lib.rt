// A sheet's bytes to the problem's arrays, question by question.
#![tactic(auto)]

ghost use Rattle.std.specs.Prelude.{◌≡◌, map, take, drop};
ghost use Rattle.definitions.specs.Questions.{read};
ghost use Rattle.definitions.specs.Numbered.{question_number};
ghost use Rattle.encoding.specs.Signs.{number_of};
ghost use Rattle.rows.specs.Kinds.{number_of_kind};
ghost use Rattle.encoding.specs.Encoding.{empty_index};
ghost use Rattle.encoding.specs.Lent.{Leaves, lent_arrays};
ghost use Rattle.lines.specs.LineReads.{Ready};
ghost use Rattle.sheet.specs.LineHolds.{LineHeld, SheetRead};

use definitions::{Question, Refusal};
use encoding::{AtomTable, COLUMNS, LITERALS, RULE_WORDS, SLOTS, STARTS, SYMBOLS, Sizes};
use rows::{Kind, LineStart};

// The most bytes of a sheet.
pub const SHEET_BYTES: usize = 16384;

fn refusal(question: Question, line: u16) -> Refusal
    ensures { result ≡ record { number = question_number question; line = line } }
{
    Refusal {
        number: u8::from(question),
        line,
    }
}

// Questions 8 to 14 of a line of its kind. Each kind takes its own few of the arrays: a struct of them for this one call is no plainer.
fn line_of_kind(
    kind: Kind,
    line: &[u16],
    s: Sizes,
    slots: &mut [u16; SLOTS],
    arities: &mut [u8; SYMBOLS],
    rules: &mut [u16; RULE_WORDS],
    starts: &mut [u16; STARTS],
    literals: &mut [u16; LITERALS],
    table: &mut AtomTable,
) -> Result<Sizes, Question>
    requires { Ready s (take s.symbols arities.old) table.old.index }
    ensures { Leaves (LineHeld (number_of_kind kind) (drop 1 (map number_of line.now)) result s) (lent_arrays arities rules starts literals table) }
{
    match kind {
        Kind::Constants => lines::constants_line(line, s),
        Kind::Symbol => lines::symbol_line(line, s, arities),
        Kind::Rule => lines::one_way::rule_line(line, s, &arities[..s.symbols], slots, rules),
        Kind::TwoWay => lines::two_way::two_way_line(line, s, &arities[..s.symbols], slots, rules),
        Kind::Clause => lines::clause_line(
            line,
            s,
            &arities[..s.symbols],
            slots,
            starts,
            literals,
            table,
        ),
    }
}

// Reads a sheet into the arrays. The table's index must be empty; the others may hold anything, and keep it behind what is read.
// Of the clause store it is lent the starts and the literals: a sheet fills no more of it.
// After a refusal the arrays hold what had been read; document 01 leaves that free, and nothing is said of it.
pub fn read_sheet(
    sheet: &[u8],
    arities: &mut [u8; SYMBOLS],
    rules: &mut [u16; RULE_WORDS],
    starts: &mut [u16; STARTS],
    literals: &mut [u16; LITERALS],
    table: &mut AtomTable,
) -> Result<Sizes, Refusal>
    requires { table.old.index ≡ empty_index }
    ensures { Leaves (SheetRead (read sheet.now) result) (lent_arrays arities rules starts literals table) }
{
    if SHEET_BYTES < sheet.len() {
        return Err(refusal(Question::SheetLength, 0));
    }
    if sheet.is_empty() {
        return Err(refusal(Question::SheetFilled, 0));
    }
    let mut row = [0u16; COLUMNS];
    let mut slots = [0u16; SLOTS];
    let mut s = Sizes {
        constants: 0,
        symbols: 0,
        rules: 0,
        counted: 0,
        clauses: 0,
        atoms: 0,
        literals: 0,
    };
    let mut before: usize = 0;
    let mut from: usize = 0;
    let mut line: u16 = 1;
    starts[0] = 0;
    // Lines differ in length, so no range counts them.
    while from < sheet.len() {
        let end = rows::line_end(sheet, from);
        let LineStart { kind, filled } = rows::read_line(
            sheet, from, end, before, &mut row,
        ).map_err(|question| refusal(question, line))?;
        s = line_of_kind(
            kind,
            &row[..filled],
            s,
            &mut slots,
            arities,
            rules,
            starts,
            literals,
            table,
        )
        .map_err(|question| refusal(question, line))?;
        before = kind.number();
        from = end + 1;
        line += 1;
    }
    Ok(s)
}
