// The command, `thunyaworm [budget N] [cnf]`: reads a sheet on standard input to its end and prints its listing, or with `cnf` the
// clauses as DIMACS CNF; for a refusal either prints its line. Other words, a sheet that can't be read and output that can't be written
// are told on standard error.
#![tactic(auto)]

ghost use Rattle.std.specs.Prelude.{◌≤◌, length, IfErr, OnOk};
ghost use Rattle.thunyaworm.specs.Outputs.{Outputs, KeepsUnread, printed_as};

use command::input::read_full;
use definitions::Order;
use std::env::{Env, FillError};
use std::io::{Read, Write};
use std::{fmt, io};

// A buffer for a word: with more bytes than any word that is taken, a longer one shows.
const WORD_BUFFER: usize = 16;

// A buffer for what the system says of an error, with room for its longest text and the number behind it.
const REASON_BUFFER: usize = 128;

// Why a sheet was not printed.
#[derive(Drop)]
enum Failure {
    Unread(io::Error),
    Unwritten(io::Error),
}

impl fmt::Display for Failure {
    fn fmt<W: fmt::Write>(&self, f: &mut fmt::Formatter<W>) -> fmt::Result {
        match self {
            Failure::Unread(why) => write!(f, "the sheet could not be read: {}", Reason(why)),
            Failure::Unwritten(why) => write!(
                f,
                "the output could not be written: {}",
                Reason(why)
            ),
        }
    }
}

// An error in the system's own words, without the number that an `io::Error` prints behind them.
#[derive(Clone, Copy)]
struct Reason<'a>(&'a io::Error);

impl fmt::Display for Reason<'_> {
    fn fmt<W: fmt::Write>(&self, f: &mut fmt::Formatter<W>) -> fmt::Result {
        let mut text = [0u8; REASON_BUFFER];
        let mut rest = &mut text[..];
        let _ = write!(rest, "{}", self.0);
        let length = REASON_BUFFER.saturating_sub(rest.len());
        let told = str::from_utf8(&text[..length]).unwrap_or("");
        f.write_str(told.split(" (os error ").next().unwrap_or(told))
    }
}

// Reads a sheet, and prints of it what the words order. A sheet that is too long is refused, so one byte more than a sheet may have is
// all that has to be held of it.
fn print<R: Read, W: Write>(input: &mut R, output: &mut W, order: Order) -> Result<(), Failure>
    ensures printed { OnOk result (Outputs (printed_as order) (R.remaining input.old) (W.contents output.old) (W.contents output.new)) }
    ensures unread { IfErr result (KeepsUnread (W.contents output.old) (W.contents output.new)) }
{
    let mut buffer = [0u8; solver::SHEET_BUFFER];
    let sheet = read_full(input, &mut buffer).map_err(Failure::Unread)?;
    match order {
        Order::Listing(budget) => {
            let mut room = [0u8; solver::ROOM];
            let size = solver::print(sheet, budget, &mut room);
            output.write_all(&room[..size]).map_err(Failure::Unwritten)
        }
        Order::Cnf(budget) => {
            let mut cnf = [0u8; solver::EXPORT_ROOM];
            let size = solver::print_cnf(sheet, budget, &mut cnf);
            output.write_all(&cnf[..size]).map_err(Failure::Unwritten)
        }
    }
}

// A word behind the command's name. One that doesn't fit is as long as the buffer, and so none of the command's.
fn fetch<'a>(rt: &impl Env, i: usize, word: &'a mut [u8; WORD_BUFFER]) -> &'a [u8]
    ensures { length result.now ≤ length word.old }
{
    let length = match rt.arg(i, word) {
        Ok(length) => length,
        Err(FillError::TooLong) => WORD_BUFFER,
        Err(FillError::NotPresent) => 0,
    };
    &word[..length]
}

// How many words stand behind the command's name, which is an argument too.
fn count_words(rt: &impl Env) -> usize {
    let mut count = 0;
    for i in 1..usize::MAX {
        let mut word = [0u8; WORD_BUFFER];
        if let Err(FillError::NotPresent) = rt.arg(i, &mut word) {
            break;
        }
        count = i;
    }
    count
}

// What the words order.
fn order(rt: &impl Env) -> Option<Order> {
    let mut first = [0u8; WORD_BUFFER];
    let mut second = [0u8; WORD_BUFFER];
    let mut third = [0u8; WORD_BUFFER];
    let lent = [
        fetch(rt, 1, &mut first),
        fetch(rt, 2, &mut second),
        fetch(rt, 3, &mut third),
    ];
    command::order_of(count_words(rt), lent)
}

// What the words order is printed; what failed is told, as far as standard error takes it.
fn main(rt: HostRuntime) {
    let Some(order) = order(&rt) else {
        let _ = rt.eprintln("usage: thunyaworm [budget N] [cnf] < SHEET");
        return;
    };
    if let Err(failure) = print(&mut rt.stdin(), &mut rt.stdout(), order) {
        let _ = eprintln!(rt; "thunyaworm: {failure}");
    }
}
