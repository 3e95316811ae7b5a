// The solver's calls: sheet bytes, a budget and a lent room. Nothing is required of a caller.
// The promises about them stand in specs/Promises.antt.
#![tactic(auto)]

mod lent; // lent.rt: the questions about what is lent

ghost use Rattle.std.specs.Prelude.{◌≤◌, ◌≡◌, length};
ghost use Rattle.definitions.specs.Questions.{read};
ghost use Rattle.definitions.specs.Call.{result as result_of, listing_of, call, listed_part, room_after, written, printed_part};
ghost use Rattle.definitions.specs.Export.{export_result, export_of, export_call, export_text, room_after_export, export_after, printed_cnf};
ghost use Rattle.answering.specs.Solving.{SolvedAs, answer_in, length_in};
ghost use Rattle.solver.specs.PrintLaws.{PrintedAs};

use answering::Solved;
use definitions::{Answer, Exported, Refusal};

// The room that a call asks for.
pub const ROOM: usize = 45056;

// The further room that an export asks for.
pub const EXPORT_ROOM: usize = 16384;

// A buffer for a sheet: with one byte more than a sheet may have, a longer one shows.
pub const SHEET_BUFFER: usize = sheet::SHEET_BYTES + 1;

// The call, with what it left in the room.
fn listed(sheet: &[u8], budget: u32, room: &mut [u8]) -> Result<Solved, Refusal>
    ensures { SolvedAs (result_of sheet.now budget room.old) (listing_of (result_of sheet.now budget room.old)) room.old result room.new }
{
    lent::check_room(room.len())?;
    answering::list(sheet, budget, room)
}

// What a call hands back: the answer, and how many bytes were put into a room, none for a refusal.
fn handed(solved: Result<Solved, Refusal>) -> Exported
    ensures answer { result.answer ≡ answer_in solved }
    ensures length { result.length ≡ length_in solved }
{
    match solved {
        Ok(solved) => Exported {
            answer: Answer::Answered(solved.counts),
            length: solved.length,
        },
        Err(refusal) => Exported {
            answer: Answer::Refused(refusal),
            length: 0,
        },
    }
}

// The call: hands back the answer with its record, and leaves the listing at the front of the room.
pub fn solve(sheet: &[u8], budget: u32, room: &mut [u8]) -> Answer
    ensures answer { result ≡ call sheet.now budget room.old }
    ensures room { room.new ≡ room_after sheet.now budget room.old }
{
    let solved = listed(sheet, budget, room);
    handed(solved).answer
}

// The second call for those who keep the room: leaves it as the first does; how many bytes at its front hold the listing, 0 for a refusal.
pub fn list(sheet: &[u8], budget: u32, room: &mut [u8]) -> usize
    ensures length { result ≡ length (listed_part sheet.now budget room.old) }
    ensures room { room.new ≡ room_after sheet.now budget room.old }
{
    let solved = listed(sheet, budget, room);
    handed(solved).length
}

// The second call: hands back the front part of the room that holds the listing, an empty part for a refusal. Once a part is handed back,
// a contract can't speak of the whole room; so this is `list`, whose contract does, and the part, and nothing else.
pub fn solve_listing<'a, 'b>(sheet: &'b [u8], budget: u32, room: &'a mut [u8]) -> &'a mut [u8]
    ensures part { result.now ≡ listed_part sheet.now budget room.old }
    ensures front { result.ref_ptr ≡ room.entry.ref_ptr }
{
    let length = list(sheet, budget, room);
    &mut room[..length]
}

// What the program prints of a call that left what it made at the front of a room: that, or the line of a refusal, put there. How many
// bytes it has.
fn printed(solved: Result<Solved, Refusal>, room: &mut [u8]) -> usize
    requires { 13 ≤ length room.old }
    ensures { PrintedAs solved room.old result room.new }
{
    match solved {
        Ok(solved) => solved.length,
        Err(refusal) => listing::put_refusal(room, refusal),
    }
}

// What the program prints for a sheet, at the front of the room: the listing, or the line of a refusal. How many bytes it has. With a
// room that is too small nothing is done, and 0 is handed back.
pub fn print(sheet: &[u8], budget: u32, room: &mut [u8]) -> usize
    ensures length { result ≡ length (printed_part sheet.now budget room.old) }
    ensures room { room.new ≡ written (printed_part sheet.now budget room.old) room.old }
{
    if room.len() < ROOM {
        return 0;
    }
    let solved = listed(sheet, budget, room);
    printed(solved, room)
}

// The export, with what it left in both rooms.
fn exported(sheet: &[u8], budget: u32, room: &mut [u8], cnf: &mut [u8]) -> Result<Solved, Refusal>
    ensures text { SolvedAs (export_result sheet.now budget room.old cnf.old)
        (export_of (read sheet.now) (export_result sheet.now budget room.old cnf.old)) cnf.old result cnf.new }
    ensures room { room.new ≡ written (listing_of (export_result sheet.now budget room.old cnf.old)) room.old }
{
    lent::check_rooms(room.len(), cnf.len())?;
    let made = answering::export(sheet, budget, room, cnf)?;
    let counts = made.counts;
    let length = made.text;
    Ok(Solved { counts, length })
}

// The export call: hands back the answer and leaves the listing room as the first call does, and leaves the goal clauses and the log as
// DIMACS CNF at the front of a further room.
pub fn export(sheet: &[u8], budget: u32, room: &mut [u8], cnf: &mut [u8]) -> Exported
    ensures answer { result.answer ≡ export_call sheet.now budget room.old cnf.old }
    ensures length { result.length ≡ length (export_text sheet.now budget room.old cnf.old) }
    ensures room { room.new ≡ room_after_export sheet.now budget room.old cnf.old }
    ensures cnf { cnf.new ≡ export_after sheet.now budget room.old cnf.old }
{
    let solved = exported(sheet, budget, room, cnf);
    handed(solved)
}

// What the program prints of a sheet for its word `cnf`, at the front of the room: the text, or the line of a refusal. How many bytes
// it has.
pub fn print_cnf(sheet: &[u8], budget: u32, cnf: &mut [u8; EXPORT_ROOM]) -> usize
    ensures length { result ≡ length (printed_cnf sheet.now budget) }
    ensures cnf { cnf.new ≡ written (printed_cnf sheet.now budget) cnf.old }
{
    let mut room = [0u8; ROOM];
    let solved = exported(sheet, budget, &mut room, cnf);
    printed(solved, cnf)
}
