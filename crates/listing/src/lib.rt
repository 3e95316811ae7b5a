// The listing at the front of a lent room: lines of kind 5, 6 and 7.
#![tactic(auto)]

pub mod writer; // writer.rt: a room that is written from its front

ghost use Rattle.std.specs.Prelude.{ℕ, ◌+◌, ◌-◌, ◌≤◌, ◌<◌, ◌≡◌, map, length, get_or};
ghost use Rattle.definitions.specs.Lists.{up_from};
ghost use Rattle.definitions.specs.Words.{Problem};
ghost use Rattle.definitions.specs.Search.{State};
ghost use Rattle.definitions.specs.Listing.{answer_number, listing as listed, refusal_line};
ghost use Rattle.machine.specs.Finished.{Finished};
ghost use Rattle.listing.specs.Puts.{Put};
ghost use Rattle.listing.specs.Writes.{HasRoom, Writes};
ghost use Rattle.listing.specs.Lines.{column_bytes, code_constant, constant_number, code_numbers};
ghost use Rattle.listing.specs.Left.{words_columns, logged_of, log_of, setting_of, settings_of, counts_of, Listable};

use definitions::{Refusal, Verdict};
use encoding::{SYMBOLS, values};
use machine::Searched;
use writer::Writer;

// A constant of an atom, by its place from 0. By hand, as its symbol below: Atom::of asks that the code is below CODES, which isn't known here.
#[tactic(auto, unfolding(crate::specs::Lines::code_constant))]
fn constant(code: u32, i: usize) -> u16
    ensures { result ≡ code_constant code i }
{
    let last = match i {
        0 => code / 1024,
        1 => code / 32,
        _ => code,
    };
    (last % 32) as u16 + 1
}

// The constants of an atom.
fn put_constants(out: &mut Writer, code: u32, arity: usize)
    requires { HasRoom out.old (column_bytes (map (constant_number code) (up_from 0 arity))) }
    ensures { Writes out.old (column_bytes (map (constant_number code) (up_from 0 arity))) out.new }
{
    for i in 0..arity {
        out.number(false, constant(code, i));
    }
}

// A literal: its symbol, negative when negated, then its constants.
fn put_literal(out: &mut Writer, arities: &[u8; SYMBOLS], negative: bool, code: u32)
    requires { HasRoom out.old (column_bytes (code_numbers arities.now negative code)) }
    ensures { Writes out.old (column_bytes (code_numbers arities.now negative code)) out.new }
{
    let symbol = (code / 32768 % 16) as usize;
    out.number(negative, symbol as u16 + 1);
    put_constants(out, code, usize::from(arities[symbol]));
}

// Document 01's number of each answer.
#[tactic(auto, unfolding(definitions::specs::Listing::answer_number))]
pub fn number(v: Verdict) -> u16
    ensures { result ≡ answer_number v }
{
    match v {
        Verdict::Unsat => 0,
        Verdict::Unknown => 1,
        Verdict::Spent => 2,
        Verdict::Full => 3,
    }
}

// What is left of a search, with what its lines need of it.
#[derive(Clone, Copy, Drop)]
struct Listing<'a> {
    searched: &'a Searched,

    ghost listable: { Listable searched.now },
}

impl Listing<'_> {
    // The literals of a clause, by its words.
    fn put_literals(&self, out: &mut Writer, words: &[u16])
        requires words { (i : ℕ) → i < length words.now → get_or words.now i 0 < 512 }
        requires room { HasRoom out.old (words_columns self.now.searched.now words.now) }
        ensures { Writes out.old (words_columns self.now.searched.now words.now) out.new }
    {
        for word in words {
            let code = self.searched.codes[usize::from(*word / 2)];
            put_literal(out, &self.searched.arities, *word % 2 == 1, code);
        }
    }

    // The line of kind 6 of the n-th logged clause, from 0.
    fn put_logged(&self, out: &mut Writer, n: usize)
        requires inside { n < self.now.searched.now.ended.run.clauses - self.now.searched.now.given }
        requires room { HasRoom out.old (logged_of self.now.searched.now n) }
        ensures { Writes out.old (logged_of self.now.searched.now n) out.new }
    {
        let words = self.searched.store.clause(self.searched.given + n);
        let rule = u16::from(self.searched.store.numbers[n]);
        out.numbers(&[6, rule, words.len() as u16]);
        self.put_literals(out, words);
        out.byte(b'\n');
    }

    // The lines of kind 6, in the order of the log.
    fn put_log(&self, out: &mut Writer)
        requires { HasRoom out.old (log_of self.now.searched.now) }
        ensures { Writes out.old (log_of self.now.searched.now) out.new }
    {
        for n in 0..self.searched.ended.run.clauses - self.searched.given {
            self.put_logged(out, n);
        }
    }

    // The line of kind 7 of the atom at a position, if it is set.
    fn put_setting(&self, out: &mut Writer, i: usize)
        requires position { i < 256 }
        requires room { HasRoom out.old (setting_of self.now.searched.now i) }
        ensures { Writes out.old (setting_of self.now.searched.now i) out.new }
    {
        if values::is_unset(&self.searched.values, i) {
            return;
        }
        let negative = values::is_false(&self.searched.values, (2 * i) as u16);
        out.numbers(&[7]);
        put_literal(
            out,
            &self.searched.arities,
            negative,
            self.searched.codes[i],
        );
        out.byte(b'\n');
    }

    // The lines of kind 7, in the order of the table, for UNKNOWN only: one for each set atom.
    fn put_settings(&self, out: &mut Writer)
        requires { HasRoom out.old (settings_of self.now.searched.now) }
        ensures { Writes out.old (settings_of self.now.searched.now) out.new }
    {
        let Verdict::Unknown = self.searched.ended.verdict else {
            return;
        };
        for i in 0..self.searched.ended.run.atoms {
            self.put_setting(out, i);
        }
    }

    // The line of kind 5.
    fn put_counts(&self, out: &mut Writer)
        requires { HasRoom out.old (counts_of self.now.searched.now) }
        ensures { Writes out.old (counts_of self.now.searched.now) out.new }
    {
        let run = self.searched.ended.run;
        let answer = number(self.searched.ended.verdict);
        let logged = (run.clauses - self.searched.given) as u16;
        out.numbers(&[5, answer, run.atoms as u16, logged]);
        out.count(u64::from(run.decisions));
        out.count(run.conflicts);
        out.byte(b'\n');
    }
}

// The listing of a search that has ended, at the front of the room: how many bytes it has.
pub fn put_listing(room: &mut [u8], searched: &Searched) -> usize
    requires { (p : Problem) × (budget : ℕ) × (s : State) × Finished p budget s searched.now
        × (length (listed searched.now.ended.verdict s) ≤ length room.old) }
    ensures { (p : Problem) (budget : ℕ) (s : State) → Finished p budget s searched.now
        → Put room.old 0 (listed searched.now.ended.verdict s) result room.new }
{
    let mut out = Writer::new(room);
    let listing = Listing { searched };
    listing.put_counts(&mut out);
    listing.put_log(&mut out);
    listing.put_settings(&mut out);
    out.written()
}

// The line of kind 9 of a refusal, at the front of the room: how many bytes it has.
pub fn put_refusal(room: &mut [u8], refusal: Refusal) -> usize
    requires { length (refusal_line refusal.number refusal.line) ≤ length room.old }
    ensures { Put room.old 0 (refusal_line refusal.number refusal.line) result room.new }
{
    let mut out = Writer::new(room);
    out.numbers(&[9, u16::from(refusal.number), refusal.line]);
    out.byte(b'\n');
    out.written()
}
