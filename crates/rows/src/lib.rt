// The lines of a sheet: where one ends, its filled columns as words, and its kind.
#![tactic(auto)]

ghost use Rattle.std.specs.Prelude.{◌≡◌, ◌+◌, ◌*◌, ◌≤◌, length, map, take, drop, IfOk, ◌<◌};
ghost use Rattle.definitions.specs.Questions.{columns, within, count, good_length, rank};
ghost use Rattle.definitions.specs.Sheet.{plus};
ghost use Rattle.encoding.specs.Signs.{number_of};
ghost use Rattle.rows.specs.Kinds.{number_of_kind, kind_number, kind_numbered, kind_if};
ghost use Rattle.rows.specs.Rows.{line_length, line_at, kind_here, row_kind, row_asked, start_of, start_asked, counted};

use definitions::Question;
use encoding::COLUMNS;
use encoding::words::word_of;

// The most bytes of a line, before its LF.
const LINE_BYTES: usize = 4 * COLUMNS;

// The kinds of lines by their numbers.
#[derive(Clone, Copy, Drop)]
pub enum Kind {
    Constants = 1,
    Symbol = 2,
    Rule = 3,
    Clause = 4,
    TwoWay = 8,
}

impl Kind {
    pub fn number(self) -> usize
        ensures { result ≡ number_of_kind self }
    {
        self as usize
    }

    #[tactic(auto, unfolding(crate::specs::Kinds::kind_numbered))]
    fn of_number(number: usize) -> Option<Kind>
        ensures { result ≡ kind_numbered number }
    {
        match number {
            1 => Some(Kind::Constants),
            2 => Some(Kind::Symbol),
            3 => Some(Kind::Rule),
            4 => Some(Kind::Clause),
            8 => Some(Kind::TwoWay),
            _ => None,
        }
    }

    // Whether a line of this kind may stand behind one of the kind with the number `before`, or as the first line, with 0.
    #[tactic(auto, unfolding(crate::specs::Rows::kind_here, definitions::specs::Questions::within, definitions::specs::Questions::rank, definitions::specs::Sheet::plus))]
    fn may_follow(self, before: usize) -> bool
        ensures { kind_if result self ≡ kind_here before (plus (number_of_kind self)) }
    {
        match (before, self) {
            (0, Kind::Constants) => true,
            (0, _) | (_, Kind::Constants) => false,
            (before, kind) => rank(before) <= rank(kind.number()),
        }
    }
}

// The rank among the lines of a kind, by its number: a two-way rule stands among the rules.
#[tactic(auto, unfolding(definitions::specs::Questions::rank))]
fn rank(kind: usize) -> usize
    ensures { result ≡ rank kind }
{
    if kind == Kind::TwoWay.number() {
        return 3;
    }
    kind
}

// The start of a line: its kind, and how many columns are filled.
#[derive(Clone, Copy, Drop)]
pub struct LineStart {
    pub kind: Kind,
    pub filled: usize,
}

// The place of the first LF from here on, or the sheet's length where there is none.
pub fn line_end(sheet: &[u8], from: usize) -> usize
    requires { from ≤ length sheet.now }
    ensures { result ≡ from + line_length (drop from sheet.now) }
{
    match sheet[from..].iter().position(|b| *b == b'\n') {
        Some(at) => from + at,
        None => sheet.len(),
    }
}

// Question 5: whether a line may have so many bytes.
#[tactic(auto, unfolding(definitions::specs::Questions::good_length))]
fn is_good_length(length: usize) -> bool
    ensures { result ≡ good_length length }
{
    4 <= length && length <= LINE_BYTES && length % 4 == 0
}

// Question 6: the filled columns of a line as words, from the row's first place on; how many they are.
fn read_row(
    sheet: &[u8],
    from: usize,
    count: usize,
    row: &mut [u16; COLUMNS],
) -> Result<usize, Question>
    requires { (from + 4 * count ≤ length sheet.now) × (count ≤ 34) }
    ensures reads { columns (take (4 * count) (drop from sheet.now)) ≡ row_asked result row.new }
    ensures fits { IfOk result (λ n. n ≤ 34) }
{
    let mut filled: usize = 0;
    for i in 0..count {
        let at = from + 4 * i;
        if let Some(number) = column::read_column(sheet, at)? {
            row[filled] = word_of(number.negative, number.size);
            filled += 1;
        }
    }
    Ok(filled)
}

// Whether the number is from low to high.
#[tactic(auto, unfolding(definitions::specs::Questions::within, encoding::specs::Signs::number_of))]
fn in_range(word: u16, low: usize, high: usize) -> bool
    ensures { result ≡ within low high (number_of word) }
{
    let size = usize::from(word) / 2;
    word % 2 == 0 && low <= size && size <= high
}

// Question 8 of a count: it stands in the column, and is from low to high.
#[tactic(auto, unfolding(definitions::specs::Questions::count, definitions::specs::Questions::ask, crate::specs::Rows::counted, encoding::specs::Signs::number_of))]
pub fn count(line: &[u16], column: usize, low: usize, high: usize) -> Result<usize, Question>
    ensures asked { count 8 low high (drop column (map number_of line.now)) ≡ counted result (drop (column + 1) (map number_of line.now)) }
    ensures fits { IfOk result (λ n. (column < length line.now) × (n ≤ high)) }
{
    match line.get(column) {
        Some(word) if in_range(*word, low, high) => Ok(usize::from(*word) / 2),
        _ => Err(Question::Counts),
    }
}

// Question 7: the kind of a line by its first number, if one is that may stand here.
fn kind_here(before: usize, word: u16) -> Option<Kind>
    ensures { kind_number result ≡ kind_here before (number_of word) }
{
    if word % 2 == 1 {
        return None;
    }
    let kind = Kind::of_number(usize::from(word) / 2)?;
    if kind.may_follow(before) {
        return Some(kind);
    }
    None
}

// The same by all its numbers: a line of blanks has none, and so no kind.
fn row_kind(before: usize, line: &[u16]) -> Option<Kind>
    ensures { kind_number result ≡ row_kind before (map number_of line.now) }
{
    match line {
        [] => None,
        [first, ..] => kind_here(before, *first),
    }
}

// Questions 4 to 7 of the line that ends here, behind one of the kind with the number `before`, or as the first line, with 0.
// `before` stays a number: the contract speaks of any (docs/PROMISES.md), and 5, say, which is no kind's, lets nothing follow.
pub fn read_line(
    sheet: &[u8],
    from: usize,
    end: usize,
    before: usize,
    row: &mut [u16; COLUMNS],
) -> Result<LineStart, Question>
    requires { (from ≤ end) × (end ≤ length sheet.now) }
    ensures reads { start_of before (line_at sheet.now from end) ≡ start_asked result row.new }
    ensures fits { IfOk result (λ s. s.filled ≤ 34) }
{
    if end == sheet.len() {
        return Err(Question::LineEnd);
    }
    let length = end - from;
    if !is_good_length(length) {
        return Err(Question::LineLength);
    }
    let filled = read_row(sheet, from, length / 4, row)?;
    let Some(kind) = row_kind(before, &row[..filled]) else {
        return Err(Question::Kind);
    };
    Ok(LineStart { kind, filled })
}
