// Cases of the test programs on standard input: a header of 18 bytes, a letter, two numbers of 8 columns
// each and a line feed, and then a payload of as many bytes as the second number says.
#![tactic(auto)]

ghost use Rattle.std.specs.Prelude.{◌≡◌, ◌≤◌, ◌/◌, min, ◌++◌, true, length, take, drop};
ghost use Rattle.std.specs.Io.KnownBytes.{Consumes};
ghost use Rattle.decimal.specs.Decimal.{read_column};
ghost use Rattle.case_reader.specs.Cases.{number_in, PayloadRead, word_of, words_of, reply_text};

use std::io::Read;

// So many cases are read at the most.
const MOST_CASES: usize = 100_000;

const HEADER: usize = 18;

// Runs a case after the other, until the input ends or a payload has no room in the buffer: the letter, the first number and the payload.
// Answers how many were run.
pub fn run_cases<R: Read, F: FnMut(u8, u64, &[u8])>(
    input: &mut R,
    buffer: &mut [u8],
    mut run: F,
) -> usize
    requires { F.IsAlwaysCallable run }
    ensures { result ≤ 100000 }
{
    for done in 0..MOST_CASES {
        let mut header = [0u8; HEADER];
        if input.read_exact(&mut header).is_err() {
            return done;
        }
        let size = number(&header[9..17]) as usize;
        if !read_payload(input, size, buffer) {
            return done;
        }
        run(header[0], number(&header[1..9]), &buffer[..size]);
    }
    MOST_CASES
}

// The number in a column, or 0.
pub fn number(s: &[u8]) -> u64
    ensures { result ≡ number_in (read_column s.now) }
{
    decimal::read(s).unwrap_or(0)
}

// Reads so many bytes of the input; false where there are fewer or no room for them.
pub fn read_payload<R: Read>(input: &mut R, size: usize, buffer: &mut [u8]) -> bool
    ensures touched { PayloadRead size buffer.old buffer.new result }
    ensures taken { result ≡ true → Consumes (R.remaining input.old) (R.remaining input.new) (take size buffer.new) }
{
    if buffer.len() < size {
        return false;
    }
    input.read_exact(&mut buffer[0..size]).is_ok()
}

// Puts the numbers of a payload, four bytes each with the lowest first, at the start of rows, and answers
// how many they are.
pub fn unpack(payload: &[u8], rows: &mut [u32]) -> usize
    ensures value { result ≡ min (length rows.old) (length payload.now / 4) }
    ensures rows_after { rows.new ≡ take result (words_of payload.now) ++ drop result rows.old }
{
    let count = rows.len().min(payload.len() / 4);
    for i in 0..count {
        rows[i] = word(
            payload[4 * i],
            payload[4 * i + 1],
            payload[4 * i + 2],
            payload[4 * i + 3],
        );
    }
    count
}

fn word(a: u8, b: u8, c: u8, d: u8) -> u32
    ensures { result ≡ word_of a b c d }
{
    u32::from_le_bytes([a, b, c, d])
}

// What is printed of a command's reply: what it has written, nothing where it has no room, or that an argument is malformed.
pub fn reply_text<E: Copy>(reply: Option<Result<usize, E>>, text: &[u8]) -> &[u8]
    ensures { result.now ≡ reply_text reply text.now }
{
    match reply {
        Some(Ok(n)) => text.get(..n).unwrap_or(&[]),
        Some(Err(_)) => &[],
        None => b"malformed\n",
    }
}
