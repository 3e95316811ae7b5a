// The calls for programs in C and Rust: numbers, and slices as a pointer and a length.
#![tactic(auto)]

mod cnf; // cnf.rt: the export call, and the reader of DIMACS CNF

ghost use Rattle.std.specs.Prelude.{◌≤◌, ◌≡◌, [], length};
ghost use Rattle.std.proofs.lemmas.List.Edits.{sets};
ghost use Rattle.definitions.specs.Call.{call, listed_part, room_after, written, printed_part, values as values_of};
ghost use Rattle.interface.specs.Handed.{lent_or, five_places};

use definitions::Answer;

// The most values that a call on a sheet puts into the places.
pub const PLACES: usize = 5;

// Words at the front of a slice: how many there are.
fn put<T: Copy>(to: &mut [T], words: &[T]) -> usize
    requires { length words.now ≤ length to.old }
    ensures count { result ≡ length words.now }
    ensures words { to.new ≡ sets to.old 0 words.now }
{
    to[..words.len()].copy_from_slice(words);
    words.len()
}

// The values of an answer at the front of the places: how many there are.
#[tactic(auto, unfolding(definitions::specs::Call::values))]
fn put_values(places: &mut [u64], answer: Answer) -> usize
    requires { 5 ≤ length places.old }
    ensures count { result ≡ length (values_of answer) }
    ensures places { places.new ≡ sets places.old 0 (values_of answer) }
{
    match answer {
        Answer::Refused(refusal) => put(
            places,
            &[u64::from(refusal.number), u64::from(refusal.line)],
        ),
        Answer::Answered(counts) => put(
            places,
            &[
                u64::from(listing::number(counts.verdict)),
                u64::from(counts.atoms),
                u64::from(counts.logged),
                u64::from(counts.decisions),
                counts.conflicts,
            ],
        ),
    }
}

// The first call. For a refusal its number and line are put into the places, and 2 is handed back; otherwise the answer's number, the
// atoms, logged clauses, decisions and conflicts, and 5. With fewer than five places nothing is done, and 0 is handed back.
#[tactic(auto, unfolding(crate::specs::Handed::lent_or, crate::specs::Handed::five_places))]
#[unsafe(no_mangle)]
pub extern "C" fn thunyaworm_solve(
    sheet: &[u8],
    budget: u32,
    room: &mut [u8],
    places: &mut [u64],
) -> usize
    ensures count { result ≡ length (lent_or (five_places places.old) (values_of (call sheet.now budget room.old)) []) }
    ensures places { places.new ≡ sets places.old 0 (lent_or (five_places places.old) (values_of (call sheet.now budget room.old)) []) }
    ensures room { room.new ≡ lent_or (five_places places.old) (room_after sheet.now budget room.old) room.old }
{
    if places.len() < PLACES {
        return 0;
    }
    put_values(places, solver::solve(sheet, budget, room))
}

// The second call: how many bytes at the front of the room hold the listing.
#[unsafe(no_mangle)]
pub extern "C" fn thunyaworm_listing(sheet: &[u8], budget: u32, room: &mut [u8]) -> usize
    ensures count { result ≡ length (listed_part sheet.now budget room.old) }
    ensures room { room.new ≡ room_after sheet.now budget room.old }
{
    solver::list(sheet, budget, room)
}

// What the program prints for a sheet, the listing or the line of a refusal: how many bytes at the front of the room hold it. With a room
// of fewer than 45,056 bytes nothing is done, and 0 is handed back.
#[unsafe(no_mangle)]
pub extern "C" fn thunyaworm_print(sheet: &[u8], budget: u32, room: &mut [u8]) -> usize
    ensures count { result ≡ length (printed_part sheet.now budget room.old) }
    ensures room { room.new ≡ written (printed_part sheet.now budget room.old) room.old }
{
    solver::print(sheet, budget, room)
}
