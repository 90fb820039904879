// Judges rows of the tables on standard input, and prints a line for each case (see case_reader).
// The first number of a header is the row, and the payload is the table's rows. J judges the row, P gives its
// precise bound. A line is the letter and 0 (3), and then for J the verdict (3), the bound (8) and the margin
// (9), for P the bound (8); or the letter, the number (3) and the place (6) of a refusal.
#![tactic(auto)]

use certifier::Refusal;

// Room for a payload; the cases end at a longer one.
const BUFFER: usize = 4096;

fn main(rt: HostRuntime) {
    let mut buffer = [0u8; BUFFER];
    case_reader::run_cases(&mut rt.stdin(), &mut buffer, |letter, row, payload| {
        run(&rt, letter, row, payload)
    });
}

fn run(rt: &impl Print, letter: u8, row: u64, payload: &[u8]) {
    let mut rows = [0u32; 600];
    let count = case_reader::unpack(payload, &mut rows);
    if letter == b'J' {
        run_judge(rt, &rows[..count], row);
    } else {
        run_bound(rt, &rows[..count], row);
    }
    let _ = rt.write_all(b"\n");
}

fn run_judge(rt: &impl Print, rows: &[u32], row: u64) {
    match certifier::judge(table_checks::standard_lengths(), rows, row) {
        Ok(judgement) => {
            print(rt, b"J", 0);
            print_number(rt, &mut [0u8; 3], certifier::verdict(judgement.outcome));
            print_number(rt, &mut [0u8; 8], judgement.bound);
            print_margin(rt, judgement.margin);
        }
        Err(refusal) => print_refusal(rt, b"J", refusal),
    }
}

fn run_bound(rt: &impl Print, rows: &[u32], row: u64) {
    match certifier::precise_bound(table_checks::standard_lengths(), rows, row) {
        Ok(bound) => {
            print(rt, b"P", 0);
            print_number(rt, &mut [0u8; 8], bound);
        }
        Err(refusal) => print_refusal(rt, b"P", refusal),
    }
}

// The letter and a number.
fn print(rt: &impl Print, letter: &[u8], number: u32) {
    let _ = rt.write_all(letter);
    print_number(rt, &mut [0u8; 3], number);
}

fn print_refusal(rt: &impl Print, letter: &[u8], refusal: Refusal) {
    print(rt, letter, certifier::number(refusal.cause));
    print_number(rt, &mut [0u8; 6], refusal.place);
}

// A number over the column.
fn print_number(rt: &impl Print, column: &mut [u8], n: u32) {
    decimal::write(column, u64::from(n));
    let _ = rt.write_all(column);
}

fn print_margin(rt: &impl Print, margin: i64) {
    let mut column = [0u8; 9];
    decimal::write_signed(&mut column, margin);
    let _ = rt.write_all(&column);
}
