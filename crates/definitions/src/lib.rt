// The answer of a call, as document 01 names it: an answer that carries its own record. And what the command does.
// What the parts mean stands in specs/: `Call` says which answer a call hands back, and gives
// document 01's number and values for each case; `Command` says what the command does with its words.
#![tactic(auto)]

ghost use Rattle.std.specs.Prelude.{◌≡◌};
ghost use Rattle.definitions.specs.Numbered.{question_number};
ghost use Rattle.definitions.specs.Asked.{asked_of_call};

// The questions by their numbers: 1 and 15 are asked of what a call is lent, 2 and 3 of a sheet, 4 to 14 of each of its lines, 21 and 22 of
// a text in DIMACS CNF.
#[derive(Clone, Copy, PartialEq, Eq, Drop)]
pub enum Question {
    Room = 1,
    SheetLength = 2,
    SheetFilled = 3,
    LineEnd = 4,
    LineLength = 5,
    Columns = 6,
    Kind = 7,
    Counts = 8,
    Limits = 9,
    Literals = 10,
    NothingLeft = 11,
    Restricted = 12,
    Goals = 13,
    Connected = 14,
    ExportRoom = 15,
    Header = 21,
    ClauseLines = 22,
}

impl From<Question> for u8 {
    ghost from_gives = { λ question number. number ≡ question_number question };

    fn from(question: Question) -> u8 {
        question as u8
    }
}

// Which question was answered no, by its number, since document 01 and C have the number; and at which line: 0 where it is asked of the call.
#[derive(Clone, Copy, Drop)]
pub struct Refusal {
    pub number: u8,
    pub line: u16,
}

impl From<Question> for Refusal {
    ghost from_gives = { λ question refusal. refusal ≡ asked_of_call question };

    fn from(question: Question) -> Refusal {
        Refusal {
            number: question.into(),
            line: 0,
        }
    }
}

// The four answers of the search.
#[derive(Clone, Copy, Drop)]
pub enum Verdict {
    Unsat,
    Unknown,
    Spent,
    Full,
}

// The answer with its counts. There may be one conflict more than a 32-bit number holds.
#[derive(Clone, Copy, Drop)]
pub struct Counts {
    pub verdict: Verdict,
    pub atoms: u16,
    pub logged: u16,
    pub decisions: u32,
    pub conflicts: u64,
}

// What a call hands back.
#[derive(Clone, Copy, Drop)]
pub enum Answer {
    Refused(Refusal),
    Answered(Counts),
}

// What an export hands back: the answer, and how many bytes at the front of its room hold the text.
#[derive(Clone, Copy, Drop)]
pub struct Exported {
    pub answer: Answer,
    pub length: usize,
}

// What the command's words order: the listing or the clauses, with the budget of the search.
#[derive(Clone, Copy, Drop)]
pub enum Order {
    Listing(u32),
    Cnf(u32),
}
