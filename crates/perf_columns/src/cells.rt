//! The front of the line of an address, which is made in one piece.

ghost use Rattle.std.specs.Prelude.{◌≡◌, ◌+◌, ◌-◌, ◌/◌, ◌%◌, ◌<◌, ◌≤◌, ◌∷◌, ◌++◌, codes, false, take, drop};
ghost use Rattle.std.specs.Fmt.{digits, digit_glyph};
ghost use Rattle.perf_columns.specs.Columns.{address_column};

/// How many bytes it has: a tab, the 16 columns of an address, a space and a bracket.
pub const CELLS: usize = 19;

// The front of an address without digits.
const BLANK: [u8; CELLS] = *b"\t                 (";

// Where the address ends.
const END: usize = 17;

// The digits of numbers in hexadecimal.
static DIGITS: [u8; 16] = *b"0123456789abcdef";

// The digit of a number.
#[inline(always)]
fn glyph(digit: u64) -> u8
    requires { digit < 16 }
    ensures { result ≡ digit_glyph false digit }
{
    DIGITS[digit as usize]
}

// Writes a digit before `end`.
#[inline(always)]
fn put_digit(cells: &mut [u8; CELLS], end: usize, digit: u64)
    requires { (digit < 16) × ((1 ≤ end) × (end ≤ CELLS)) }
    ensures before { take (end - 1) cells.new ≡ take (end - 1) cells.old }
    ensures after { drop (end - 1) cells.new ≡ digit_glyph false digit ∷ drop end cells.old }
{
    cells[end - 1] = glyph(digit);
}

// Writes the two digits of a byte before `end`.
#[inline(always)]
fn put_pair(cells: &mut [u8; CELLS], end: usize, byte: u64)
    requires { (byte < 256) × ((2 ≤ end) × (end ≤ CELLS)) }
    ensures before { take (end - 2) cells.new ≡ take (end - 2) cells.old }
    ensures after { drop (end - 2) cells.new
        ≡ digit_glyph false (byte / 16) ∷ digit_glyph false (byte % 16) ∷ drop end cells.old }
{
    put_digit(cells, end, byte % 16);
    put_digit(cells, end - 1, byte / 16);
}

// Writes a number into the columns of an address, two digits at a time, and returns where it begins.
#[inline(always)]
fn put_number(cells: &mut [u8; CELLS], number: u64) -> usize
    ensures start { (1 ≤ result) × (result ≤ END) }
    ensures before { take result cells.new ≡ take result cells.old }
    ensures after { drop result cells.new ≡ digits 16 false number ++ drop END cells.old }
{
    let mut left = number;
    let mut at = END;
    while left >= 256 {
        put_pair(cells, at, left % 256);
        left /= 256;
        at -= 2;
    }
    if left >= 16 {
        put_pair(cells, at, left);
        return at - 2;
    }
    put_digit(cells, at, left);
    at - 1
}

/// A tab, an address in its columns, a space and a bracket.
#[inline(always)]
pub fn cells_of(address: u64) -> [u8; CELLS]
    ensures { result ≡ codes "\t" ++ (address_column address ++ codes " (") }
{
    let mut cells = BLANK;
    put_number(&mut cells, address);
    cells
}
