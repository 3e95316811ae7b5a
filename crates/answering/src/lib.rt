// A sheet that is lent rooms large enough: read, searched and listed, and for an export its clauses written as DIMACS CNF.
// The calls above ask about what is lent.
#![tactic(auto)]

ghost use Rattle.std.specs.Prelude.{ℕ, ◌≤◌, ◌≡◌, length};
ghost use Rattle.definitions.specs.Bounds.{room_bytes, export_bytes};
ghost use Rattle.definitions.specs.Words.{Problem};
ghost use Rattle.definitions.specs.Questions.{read};
ghost use Rattle.definitions.specs.Search.{State};
ghost use Rattle.definitions.specs.Call.{answered as answered_of, listing_of, record_of};
ghost use Rattle.definitions.specs.Export.{export_of};
ghost use Rattle.machine.specs.Finished.{Finished};
ghost use Rattle.answering.specs.Solving.{SolvedAs, listing_in, text_in};

use definitions::{Counts, Refusal};
use machine::Searched;

// The counts of an answer, and how many bytes at the front of a room hold what is made of it.
#[derive(Clone, Copy, Drop)]
pub struct Solved {
    pub counts: Counts,
    pub length: usize,
}

// The counts of an export's answer, and how many bytes at the fronts of its rooms hold the listing and the text of the clauses.
#[derive(Clone, Copy, Drop)]
pub struct SolvedExport {
    pub counts: Counts,
    pub listing: usize,
    pub text: usize,
}

// The counts of a search that has ended.
fn counts_of(searched: &Searched) -> Counts
    requires { (p : Problem) × (budget : ℕ) × (s : State) × Finished p budget s searched.now }
    ensures { (p : Problem) (budget : ℕ) (s : State) → Finished p budget s searched.now → result ≡ record_of searched.now.ended.verdict s }
{
    let verdict = searched.ended.verdict;
    let run = searched.ended.run;
    Counts {
        verdict,
        atoms: run.atoms as u16,
        logged: (run.clauses - searched.given) as u16,
        decisions: run.decisions,
        conflicts: run.conflicts,
    }
}

// The call with a room that is large enough.
pub fn list(sheet: &[u8], budget: u32, room: &mut [u8]) -> Result<Solved, Refusal>
    requires { room_bytes ≤ length room.old }
    ensures { SolvedAs (answered_of (read sheet.now) budget) (listing_of (answered_of (read sheet.now) budget)) room.old result room.new }
{
    let searched = pipe::search_sheet(sheet, budget)?;
    let length = listing::put_listing(room, &searched);
    let counts = counts_of(&searched);
    Ok(Solved { counts, length })
}

// The export with rooms that are large enough.
pub fn export(
    sheet: &[u8],
    budget: u32,
    room: &mut [u8],
    cnf: &mut [u8],
) -> Result<SolvedExport, Refusal>
    requires room { room_bytes ≤ length room.old }
    requires cnf { export_bytes ≤ length cnf.old }
    ensures text { SolvedAs (answered_of (read sheet.now) budget) (export_of (read sheet.now) (answered_of (read sheet.now) budget)) cnf.old (text_in result) cnf.new }
    ensures listing { SolvedAs (answered_of (read sheet.now) budget) (listing_of (answered_of (read sheet.now) budget)) room.old (listing_in result) room.new }
{
    let searched = pipe::search_sheet(sheet, budget)?;
    let listing = listing::put_listing(room, &searched);
    let text = cnf_writer::put_cnf(cnf, &searched);
    let counts = counts_of(&searched);
    Ok(SolvedExport {
        counts,
        listing,
        text,
    })
}
