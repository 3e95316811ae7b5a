// The export call and the reader of DIMACS CNF, for programs in C and Rust.
ghost use Rattle.std.specs.Prelude.{◌≤◌, ◌≡◌, [], IfOk, length};
ghost use Rattle.std.proofs.lemmas.List.Edits.{sets};
ghost use Rattle.definitions.specs.Call.{values as values_of};
ghost use Rattle.definitions.specs.Dimacs.{read_cnf};
ghost use Rattle.definitions.specs.Export.{export_call, export_text, room_after_export, export_after};
ghost use Rattle.cnf_reader.specs.CnfArrays.{cnf_read, cnf_values};
ghost use Rattle.interface.specs.Handed.{lent_or, five_places, cnf_lent, unless_refused};

use crate::{PLACES, put, put_values};
use cnf_reader::Cnf;
use definitions::Question;

// The most values that the reader puts into the places.
pub const CNF_PLACES: usize = 3;

// The export call: how many bytes at the front of the export room hold the text, 0 for a refusal. The places hold what the first call
// puts there. With fewer than five places nothing is done, and 0 is handed back.
#[tactic(auto, unfolding(crate::specs::Handed::lent_or, crate::specs::Handed::five_places))]
#[unsafe(no_mangle)]
pub extern "C" fn thunyaworm_export(
    sheet: &[u8],
    budget: u32,
    room: &mut [u8],
    cnf: &mut [u8],
    places: &mut [u64],
) -> usize
    ensures count { result ≡ length (lent_or (five_places places.old) (export_text sheet.now budget room.old cnf.old) []) }
    ensures places { places.new ≡ sets places.old 0 (lent_or (five_places places.old) (values_of (export_call sheet.now budget room.old cnf.old)) []) }
    ensures room { room.new ≡ lent_or (five_places places.old) (room_after_export sheet.now budget room.old cnf.old) room.old }
    ensures cnf { cnf.new ≡ lent_or (five_places places.old) (export_after sheet.now budget room.old cnf.old) cnf.old }
{
    if places.len() < PLACES {
        return 0;
    }
    let exported = solver::export(sheet, budget, room, cnf);
    put_values(places, exported.answer);
    exported.length
}

// What was read: the values of the answer at the front of the places, and how many there are; and the arrays, but for a refusal.
#[tactic(auto, unfolding(cnf_reader::specs::CnfArrays::cnf_values, crate::specs::Handed::unless_refused))]
fn put_read(
    read: &Result<Cnf, Question>,
    starts: &mut [u16],
    literals: &mut [u16],
    places: &mut [u64],
) -> usize
    requires starts { 577 ≤ length starts.old }
    requires literals { 4608 ≤ length literals.old }
    requires places { 3 ≤ length places.old }
    requires lengths { IfOk read.now (λ cnf. (length cnf.starts ≡ 577) × (length cnf.literals ≡ 4608)) }
    ensures count { result ≡ length (cnf_values read.now) }
    ensures places { places.new ≡ sets places.old 0 (cnf_values read.now) }
    ensures starts { starts.new ≡ sets starts.old 0 (unless_refused (λ cnf. cnf.starts) read.now) }
    ensures literals { literals.new ≡ sets literals.old 0 (unless_refused (λ cnf. cnf.literals) read.now) }
{
    match read {
        Err(question) => put(places, &[u64::from(u8::from(*question))]),
        Ok(cnf) => {
            put(starts, &cnf.starts);
            put(literals, &cnf.literals);
            put(places, &[0, u64::from(cnf.atoms), u64::from(cnf.clauses)])
        }
    }
}

// The reader of DIMACS CNF. For a refusal 21 or 22 is put into the places, and 1 is handed back; otherwise 0, the atoms and the clauses,
// and 3, and the arrays are filled. With fewer than 577 starts, 4,608 literals or three places nothing is done, and 0 is handed back.
#[tactic(auto, unfolding(crate::specs::Handed::lent_or, crate::specs::Handed::cnf_lent))]
#[unsafe(no_mangle)]
pub extern "C" fn thunyaworm_read_cnf(
    text: &[u8],
    starts: &mut [u16],
    literals: &mut [u16],
    places: &mut [u64],
) -> usize
    ensures count { result ≡ length (lent_or (cnf_lent starts.old literals.old places.old) (cnf_values (cnf_read (read_cnf text.now))) []) }
    ensures places { places.new ≡ sets places.old 0 (lent_or (cnf_lent starts.old literals.old places.old) (cnf_values (cnf_read (read_cnf text.now))) []) }
    ensures starts { starts.new ≡ sets starts.old 0 (lent_or (cnf_lent starts.old literals.old places.old)
        (unless_refused (λ cnf. cnf.starts) (cnf_read (read_cnf text.now))) []) }
    ensures literals { literals.new ≡ sets literals.old 0 (lent_or (cnf_lent starts.old literals.old places.old)
        (unless_refused (λ cnf. cnf.literals) (cnf_read (read_cnf text.now))) []) }
{
    if starts.len() < cnf_reader::STARTS {
        return 0;
    }
    if literals.len() < cnf_reader::WORDS {
        return 0;
    }
    if places.len() < CNF_PLACES {
        return 0;
    }
    put_read(&cnf_reader::read_cnf(text), starts, literals, places)
}
