// The clauses of a search that has ended as DIMACS CNF, at the front of a lent room.
#![tactic(auto)]

ghost use Rattle.std.specs.Prelude.{◌+◌, ◌≤◌, ◌<◌, ◌≡◌, length, get_or};
ghost use Rattle.definitions.specs.Listing.{signed_decimals};
ghost use Rattle.definitions.specs.Dimacs.{header_line};
ghost use Rattle.listing.specs.Puts.{Put};
ghost use Rattle.listing.specs.Writes.{HasRoom, Writes};
ghost use Rattle.cnf_writer.specs.CnfBytes.{word_text, line_text, cnf_bytes, Exportable};

use encoding::ClauseStore;
use listing::writer::Writer;
use machine::Searched;

// A signed number.
fn put_number(out: &mut Writer, negative: bool, size: u64)
    requires { HasRoom out.old (signed_decimals 3 (record { negative = negative; size = size })) }
    ensures { Writes out.old (signed_decimals 3 (record { negative = negative; size = size })) out.new }
{
    if negative {
        out.byte(b'-');
    }
    out.decimal(size);
}

// The header.
fn put_header(out: &mut Writer, atoms: u64, clauses: u64)
    requires { HasRoom out.old (header_line atoms clauses) }
    ensures { Writes out.old (header_line atoms clauses) out.new }
{
    out.bytes(b"p cnf ");
    out.decimal(atoms);
    out.byte(b' ');
    out.decimal(clauses);
    out.byte(b'\n');
}

// A literal by its word, and a blank.
fn put_literal(out: &mut Writer, word: u16)
    requires { HasRoom out.old (word_text word) }
    ensures { Writes out.old (word_text word) out.new }
{
    put_number(out, word % 2 == 1, u64::from(word / 2 + 1));
    out.byte(b' ');
}

// The line of a clause: its literals, 0 and LF. That the clause doesn't end before it starts isn't asked, so its words are no slice here.
fn put_clause(out: &mut Writer, store: &ClauseStore, c: usize)
    requires place { c < 577 }
    requires inside { get_or store.now.starts (c + 1) 0 ≤ length store.now.literals }
    requires room { HasRoom out.old (line_text store.now.starts store.now.literals c) }
    ensures { Writes out.old (line_text store.now.starts store.now.literals c) out.new }
{
    let end = usize::from(store.starts[c + 1]);
    for i in usize::from(store.starts[c])..end {
        put_literal(out, store.literals[i]);
    }
    out.bytes(b"0\n");
}

// The clauses of a search that has ended as DIMACS CNF, goal clauses and then the log, at the front of the room: how many bytes the text has.
pub fn put_cnf(room: &mut [u8], searched: &Searched) -> usize
    requires exportable { Exportable searched.now.ended.run searched.now.store.starts searched.now.store.literals }
    requires room { length (cnf_bytes searched.now.ended.run searched.now.store.starts searched.now.store.literals) ≤ length room.old }
    ensures { Put room.old 0 (cnf_bytes searched.now.ended.run searched.now.store.starts searched.now.store.literals) result room.new }
{
    let run = searched.ended.run;
    let mut out = Writer::new(room);
    put_header(&mut out, run.atoms as u64, run.clauses as u64);
    for c in 0..run.clauses {
        put_clause(&mut out, &searched.store, c);
    }
    out.written()
}
