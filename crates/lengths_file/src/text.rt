// The text form of the lengths.
ghost use Rattle.std.specs.Prelude.{◌≡◌, ◌+◌, ◌*◌, ◌<◌, ◌≤◌, ◌++◌, length, drop};
ghost use Rattle.arith.specs.Lists.{exists, range};
ghost use Rattle.decimal.specs.Decimal.{read_column};
ghost use Rattle.lengths_file.specs.Lengths.{column_at, number_in, is_broken, is_line, is_text, line_of, line_text, text_of};

use crate::{FILE, LINE};
use table_checks::{KINDS, PAYLOADS};

// The characters of a column.
const COLUMN: usize = 5;

const LINE_FEED: u8 = 10;

// What column s of line k holds.
fn column(file: &[u8], k: usize, s: usize) -> Option<u64>
    requires { (46 * k + 46 ≤ length file.now) × (s < 9) }
    ensures { result ≡ read_column (column_at file.now k s) }
{
    let from = LINE * k + COLUMN * s;
    let to = from + COLUMN;
    decimal::read(&file[from..to])
}

// Whether column s of line k breaks the notation.
fn is_broken(file: &[u8], k: usize, s: usize) -> bool
    requires { (46 * k + 46 ≤ length file.now) × (s < 9) }
    ensures { result ≡ is_broken file.now k s }
{
    column(file, k, s).is_none()
}

// Whether some column of line k does.
fn breaks_notation(file: &[u8], k: usize) -> bool
    requires { 46 * k + 46 ≤ length file.now }
    ensures { result ≡ exists (is_broken file.now k) (range 0 9) }
{
    for s in 0..PAYLOADS {
        if is_broken(file, k, s) {
            return true;
        }
    }
    false
}

// Whether line k has nine numbers and a line feed.
fn is_line(file: &[u8], k: usize) -> bool
    requires { 46 * k + 46 ≤ length file.now }
    ensures { result ≡ is_line file.now k }
{
    file[LINE * k + COLUMN * PAYLOADS] == LINE_FEED && !breaks_notation(file, k)
}

// Whether the file has two such lines and nothing else.
pub fn is_text(file: &[u8]) -> bool
    ensures { result ≡ is_text file.now }
{
    if file.len() != FILE {
        return false;
    }
    is_line(file, 0) && is_line(file, 1)
}

// The number in column s of line k, 0 where it breaks the notation.
fn number(file: &[u8], k: usize, s: usize) -> u32
    requires { (46 * k + 46 ≤ length file.now) × (s < 9) }
    ensures { result ≡ number_in (read_column (column_at file.now k s)) }
{
    column(file, k, s).unwrap_or(0) as u32
}

// The numbers of line k.
pub fn line(file: &[u8], k: usize) -> [u32; 9]
    requires { 46 * k + 46 ≤ length file.now }
    ensures { result ≡ line_of file.now k }
{
    let mut numbers = [0u32; PAYLOADS];
    for s in 0..PAYLOADS {
        numbers[s] = number(file, k, s);
    }
    numbers
}

// Writes line k of the lengths.
fn write_line(lengths: [[u32; 9]; 2], k: usize, line: &mut [u8])
    requires { (k < 2) × (length line.old ≡ 46) }
    ensures { line.new ≡ line_text lengths k }
{
    for s in 0..PAYLOADS {
        let from = COLUMN * s;
        let to = from + COLUMN;
        decimal::write(&mut line[from..to], u64::from(lengths[k][s]));
    }
    line[LINE - 1] = LINE_FEED;
}

// Writes the lines of the lengths.
pub fn write_lines(lengths: [[u32; 9]; 2], file: &mut [u8])
    requires { 92 ≤ length file.old }
    ensures { file.new ≡ text_of lengths ++ drop 92 file.old }
{
    for k in 0..KINDS {
        let from = LINE * k;
        let to = from + LINE;
        write_line(lengths, k, &mut file[from..to]);
    }
}
