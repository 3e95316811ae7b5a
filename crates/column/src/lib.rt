// One decimal column: read from four bytes, written into four or twelve.
#![tactic(auto)]

ghost use Rattle.std.specs.Prelude.{◌+◌, ◌<◌, ◌≤◌, ◌≡◌, true, [], ◌∷◌, length, take, drop, IfErr};
ghost use Rattle.std.proofs.lemmas.List.Edits.{sets};
ghost use Rattle.definitions.specs.declared.Question.TheVariants.{Columns};
ghost use Rattle.definitions.specs.Sheet.{digits, natural, decimal};
ghost use Rattle.definitions.specs.Listing.{decimals, signed_decimals, field_bytes, narrow, wide};
ghost use Rattle.column.specs.Column.{column_of, size_of};
ghost use Rattle.column.specs.Scan.{read_on, size_before, ReadAs};
ghost use Rattle.column.specs.Places.{PutLast};

use definitions::Question;

// A number, its sign apart from its size.
#[derive(Clone, Copy, Drop)]
pub struct Number {
    pub negative: bool,
    pub size: u16,
}

// What the bytes of a column are up to some place.
#[derive(Clone, Copy, Drop)]
enum Scan {
    Blanks,
    Minus,
    Zero,
    Digits(Number),
}

// The scan after a byte that is to be a digit.
fn digit(number: Number, b: u8) -> Result<Scan, Question>
    requires { number.size ≤ 999 }
    ensures { ReadAs (λ rest. digits number.negative number.size (b ∷ rest)) number.size result }
{
    if b < b'0' || b'9' < b {
        return Err(Question::Columns);
    }
    Ok(Scan::Digits(Number {
        size: number.size * 10 + u16::from(b - b'0'),
        ..number
    }))
}

// The scan after a byte that is to be the first digit of several, and so no 0.
fn first_digit(negative: bool, b: u8) -> Result<Scan, Question>
    ensures { ReadAs (λ rest. natural negative (b ∷ rest)) 0 result }
{
    if b < b'1' {
        return Err(Question::Columns);
    }
    digit(Number { negative, size: 0 }, b)
}

// The scan after a byte that has only blanks before it.
fn first(b: u8) -> Result<Scan, Question>
    ensures { ReadAs (λ rest. decimal (b ∷ rest)) 0 result }
{
    match b {
        b' ' => Ok(Scan::Blanks),
        b'-' => Ok(Scan::Minus),
        b'0' => Ok(Scan::Zero),
        _ => first_digit(false, b),
    }
}

// The scan after one byte more.
fn step(scan: Scan, b: u8) -> Result<Scan, Question>
    requires { size_before scan ≤ 999 }
    ensures { ReadAs (λ rest. read_on scan (b ∷ rest)) (size_before scan) result }
{
    match scan {
        Scan::Blanks => first(b),
        Scan::Minus => first_digit(true, b),
        Scan::Digits(number) => digit(number, b),
        Scan::Zero => Err(Question::Columns),
    }
}

// The column, once all of its bytes are scanned.
#[tactic(auto, unfolding(crate::specs::Column::column_of, crate::specs::Column::size_of, crate::specs::Scan::read_on, crate::specs::Scan::size_before, definitions::specs::Sheet::digits, definitions::specs::Sheet::natural, definitions::specs::Sheet::decimal, definitions::specs::Sheet::plus, definitions::specs::Lists::is_empty))]
fn finish(scan: Scan) -> Result<Option<Number>, Question>
    ensures reads { column_of result ≡ read_on scan [] }
    ensures small { size_of result ≤ size_before scan }
    ensures question { IfErr result (λ q. q ≡ Columns) }
{
    match scan {
        Scan::Digits(number) => Ok(Some(number)),
        Scan::Zero => Ok(Some(Number {
            negative: false,
            size: 0,
        })),
        Scan::Blanks => Ok(None),
        Scan::Minus => Err(Question::Columns),
    }
}

// What stands in the four bytes from `at` on: a number, or nothing where they are blank.
pub fn read_column(s: &[u8], at: usize) -> Result<Option<Number>, Question>
    requires { at + 4 ≤ length s.now }
    ensures reads { column_of result ≡ decimal (take 4 (drop at s.now)) }
    ensures small { size_of result ≤ 9999 }
    ensures question { IfErr result (λ q. q ≡ Columns) }
{
    let mut scan = Scan::Blanks;
    for b in &s[at..at + 4] {
        scan = step(scan, *b)?;
    }
    finish(scan)
}

// The digits of a number in the last places of a field: how many places are left before them.
pub fn put_digits(field: &mut [u8], size: u64) -> usize
    ensures { PutLast field.old (length field.old) (decimals (length field.old) size) result field.new }
{
    let mut n = size;
    for left in (0..field.len()).rev() {
        field[left] = b'0' + (n % 10) as u8;
        if n < 10 {
            return left;
        }
        n /= 10;
    }
    0
}

// A column of any width, for a number that fits: from the right, its digits, its sign and blanks.
fn put_column(field: &mut [u8], negative: bool, size: u64)
    requires { length (signed_decimals (length field.old) (record { negative = negative; size = size })) ≤ length field.old }
    ensures { field.new ≡ field_bytes (record { width = length field.old; number = record { negative = negative; size = size } }) }
{
    let mut left = put_digits(field, size);
    if negative {
        left -= 1;
        field[left] = b'-';
    }
    field[..left].fill(b' ');
}

// One column of 4 bytes. A sign takes a place from the digits; of a longer number the last digits stand. It is lent the room with the place,
// not the column's slice, since its contract says that nothing else of the room changes; so is the next one.
pub fn put_narrow(room: &mut [u8], at: usize, negative: bool, size: u16)
    requires { (at + 4 ≤ length room.old) × (negative ≡ true → size < 1000) }
    ensures { room.new ≡ sets room.old at (field_bytes (narrow (record { negative = negative; size = size }))) }
{
    put_column(&mut room[at..at + 4], negative, u64::from(size));
}

// One column of 12 bytes.
pub fn put_wide(room: &mut [u8], at: usize, n: u64)
    requires { at + 12 ≤ length room.old }
    ensures { room.new ≡ sets room.old at (field_bytes (wide n)) }
{
    put_column(&mut room[at..at + 12], false, n);
}
