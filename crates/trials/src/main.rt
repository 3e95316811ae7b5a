// Runs both calls on sheets from standard input, each call with a room of its own, and prints what they hand back and leave there.
// A sheet stands behind a line with three numbers: its length in five places, the budget in ten, the rooms' length in five.
#![tactic(auto)]

ghost use Rattle.std.specs.Prelude.{◌≤◌, length};

use command::input::read_full;
use definitions::Answer;
use std::io;
use std::io::Input;

// The most sheets that are read.
const SHEETS: usize = 1000;

// What stands at a place of a room before a call.
fn mark(at: usize) -> u8 {
    (128 + at % 101) as u8
}

fn fill(room: &mut [u8]) {
    for (i, byte) in room.iter_mut().enumerate() {
        *byte = mark(i);
    }
}

// How many bytes of a room are no longer those before, from a place on.
fn changed(room: &[u8], from: usize) -> usize {
    (from..room.len()).filter(|i| room[*i] != mark(*i)).count()
}

// In how many bytes two rooms differ, as far as both go.
fn unlike(one: &[u8], other: &[u8]) -> usize {
    (0..one.len().min(other.len()))
        .filter(|i| one[*i] != other[*i])
        .count()
}

fn print(rt: &impl Print, n: u64) -> io::Result<()> {
    print!(rt; " {n}")
}

// What the first call hands back.
fn print_answer(rt: &impl Print, answer: Answer) -> io::Result<()> {
    match answer {
        Answer::Refused(refusal) => {
            print!(rt; "refused")?;
            print(rt, u64::from(refusal.number))?;
            print(rt, u64::from(refusal.line))
        }
        Answer::Answered(counts) => {
            print!(rt; "answered")?;
            print(rt, u64::from(listing::number(counts.verdict)))?;
            print(rt, u64::from(counts.atoms))?;
            print(rt, u64::from(counts.logged))?;
            print(rt, u64::from(counts.decisions))?;
            print(rt, counts.conflicts)
        }
    }
}

// The second call: prints its part's length and in how many bytes the part differs from the front of the first room. Gives the length.
fn print_part(
    rt: &impl Print,
    sheet: &[u8],
    budget: u32,
    room: &mut [u8],
    first: &[u8],
) -> io::Result<usize> {
    let part = solver::solve_listing(sheet, budget, room);
    let length = part.len();
    let differing = unlike(part, first);
    print!(rt; " part {length} unlike {differing}")?;
    Ok(length)
}

// So many bytes at the front of a room, or nothing where it has fewer.
fn print_front(rt: &impl Print, room: &[u8], length: usize) -> io::Result<()> {
    if room.len() < length {
        return Ok(());
    }
    Print::write_all(rt, &room[..length])
}

// Both calls, each with so many bytes of a room: what they hand back, then the listing. The four counts at the line's end are to be 0:
// bytes of the part that are not those of the first room, bytes changed behind the listing in either room, bytes in which the rooms
// differ.
fn trial(
    rt: &impl Print,
    sheet: &[u8],
    budget: u32,
    size: usize,
    first: &mut [u8],
    second: &mut [u8],
) -> io::Result<()>
    requires of_first { size ≤ length first.old }
    requires of_second { size ≤ length second.old }
{
    fill(first);
    fill(second);
    let answer = solver::solve(sheet, budget, &mut first[..size]);
    print_answer(rt, answer)?;
    let length = print_part(rt, sheet, budget, &mut second[..size], first)?;
    print(rt, changed(first, length) as u64)?;
    print(rt, changed(second, length) as u64)?;
    print(rt, unlike(first, second) as u64)?;
    println!(rt;)?;
    print_front(rt, first, length)
}

// The value of a digit, 0 for any other byte.
fn digit(b: u8) -> u64
    ensures { result ≤ 9 }
{
    match b {
        b'0'..=b'9' => u64::from(b - b'0'),
        _ => 0,
    }
}

// The number that digits make, but no more than what is named.
fn number(digits: &[u8], most: u64) -> u64
    requires { most ≤ 4294967295 }
    ensures { result ≤ most }
{
    let mut value: u64 = 0;
    for b in digits {
        value = (value * 10 + digit(*b)).min(most);
    }
    value
}

fn main(rt: HostRuntime) -> io::Result<()> {
    let mut input = rt.reader();
    for _ in 0..SHEETS {
        let mut line = [0u8; 23];
        if read_full(&mut input, &mut line)?.len() < line.len() {
            break;
        }
        let length = number(&line[..5], 99999) as usize;
        let budget = number(&line[6..16], 4294967295) as u32;
        let size = number(&line[17..22], 45100) as usize;
        let mut space = [0u8; 99999];
        let sheet = read_full(&mut input, &mut space[..length])?;
        let mut first = [0u8; 45100];
        let mut second = [0u8; 45100];
        trial(&rt, sheet, budget, size, &mut first, &mut second)?;
    }
    Ok(())
}
