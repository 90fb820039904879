// Reads, checks and writes the tables of standard input, and prints a line for each.
// A case is a header of 18 bytes, a letter, the size of the lent area (8) and of the payload (8) and a
// line feed, and then the payload: for R a file to be read, for C and W rows to be checked and written,
// each number four bytes with the lowest first. A line is the letter, the number (3) and the place (6) of a
// refusal, or 0 and the count of lines, and for R and W the fingerprint (10) of the lent area.
#![tactic(auto)]

use table_checks::Refusal;

// Room for a payload; the cases end at a longer one.
const BUFFER: usize = 4096;

// What the lent area holds before the call.
const FILL_WORD: u32 = 7;

const FILL_BYTE: u8 = 7;

fn main(rt: HostRuntime) {
    let mut buffer = [0u8; BUFFER];
    case_reader::run_cases(&mut rt.stdin(), &mut buffer, |letter, area, payload| {
        run(&rt, letter, area as usize, payload)
    });
}

fn run(rt: &impl Print, letter: u8, area: usize, payload: &[u8]) {
    if letter == b'R' {
        let mut words = [FILL_WORD; 600];
        run_read(rt, payload, area, &mut words);
        return;
    }
    let mut rows = [0u32; 600];
    let count = case_reader::unpack(payload, &mut rows);
    if letter == b'C' {
        run_check(rt, &rows[..count]);
    } else {
        let mut bytes = [FILL_BYTE; 4096];
        run_write(rt, &rows[..count], area, &mut bytes);
    }
}

fn run_read(rt: &impl Print, file: &[u8], area: usize, words: &mut [u32]) {
    let Some(lent) = words.get_mut(..area) else {
        return;
    };
    let answer = frame_table::read(file, lent);
    print_answer(rt, b"R", answer.map(|n| n / table_checks::ROW));
    print_column(rt, fingerprint(lent));
}

fn run_check(rt: &impl Print, rows: &[u32]) {
    let checked = table_checks::check(rows);
    print_answer(rt, b"C", checked.map(|()| rows.len() / table_checks::ROW));
    let _ = rt.write_all(b"\n");
}

fn run_write(rt: &impl Print, rows: &[u32], area: usize, bytes: &mut [u8]) {
    let Some(lent) = bytes.get_mut(..area) else {
        return;
    };
    let answer = frame_table::write(rows, lent);
    print_answer(rt, b"W", answer.map(|n| n / table_checks::LINE));
    print_column(rt, fingerprint(lent));
}

// The letter, and the refusal or the count of lines.
fn print_answer(rt: &impl Print, letter: &[u8], answer: Result<usize, Refusal>) {
    match answer {
        Ok(lines) => print_result(rt, letter, 0, lines as u64),
        Err(refusal) => print_result(
            rt,
            letter,
            table_checks::number(refusal.cause),
            u64::from(refusal.place),
        ),
    }
}

// The letter, a number and a place.
fn print_result(rt: &impl Print, letter: &[u8], number: u32, place: u64) {
    let _ = rt.write_all(letter);
    let mut first = [0u8; 3];
    decimal::write(&mut first, u64::from(number));
    let _ = rt.write_all(&first);
    let mut second = [0u8; 6];
    decimal::write(&mut second, place);
    let _ = rt.write_all(&second);
}

fn print_column(rt: &impl Print, n: u64) {
    let mut column = [0u8; 10];
    decimal::write(&mut column, n);
    let _ = rt.write_all(&column);
    let _ = rt.write_all(b"\n");
}

// One element more of a fingerprint.
fn mixed(h: u64, element: u64) -> u64 {
    (h % 4_294_967_296 * 31 + element % 4_294_967_296) % 4_294_967_296
}

fn fingerprint<T: Copy>(elements: &[T]) -> u64
where
    u64: From<T>,
{
    elements
        .iter()
        .fold(0, |h, element| mixed(h, u64::from(*element)))
}
