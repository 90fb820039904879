// Entries for a test program in another language, for the operations that have no entry for C. Each answers one signed
// number: how many elements were written, 0 for a check that passed, a judgement or a bound as certifier encodes it, or
// minus (number × 10000 + place) for a refusal. Lengths are given as numbers, eighteen where none is missing.
#![tactic(auto)]

mod lengths;

ghost use Rattle.std.specs.Prelude.{◌≡◌};
ghost use Rattle.table_checks.specs.Checks.{rows_check};
ghost use Rattle.frame_table.specs.Text.{fields_of, text_of};
ghost use Rattle.frame_table.specs.Table.{area_after};
ghost use Rattle.lengths_file.specs.Lengths.{text_of as lengths_text_of};
ghost use Rattle.row_judgement.specs.Judge.{judge_row, bound_row};
ghost use Rattle.certifier.specs.Encode.{encode_judged, encode_bounded, encode_answer};
ghost use Rattle.test_entries.specs.Lengths.{array_of};
ghost use Rattle.test_entries.specs.Encode.{read_answer, write_answer, write_lengths_answer, encode_checked};

use crate::lengths::array;

// Checks rows in memory.
#[unsafe(no_mangle)]
pub extern "C" fn test_check(rows: &[u32]) -> i64
    ensures { result ≡ encode_checked (rows_check rows.now) }
{
    match table_checks::check(rows) {
        Ok(()) => 0,
        Err(refusal) => certifier::encode_refusal(certifier::Refusal::from(refusal)),
    }
}

// Reads a file into rows.
#[unsafe(no_mangle)]
pub extern "C" fn test_read(file: &[u8], rows: &mut [u32]) -> i64
    ensures value { result ≡ encode_answer (read_answer file.now rows.old) }
    ensures rows_after { rows.new ≡ area_after (read_answer file.now rows.old) (fields_of file.now) rows.old }
{
    certifier::encode_answer(frame_table::read(file, rows))
}

// Writes rows to a file.
#[unsafe(no_mangle)]
pub extern "C" fn test_write(rows: &[u32], file: &mut [u8]) -> i64
    ensures value { result ≡ encode_answer (write_answer rows.now file.old) }
    ensures file_after { file.new ≡ area_after (write_answer rows.now file.old) (text_of rows.now) file.old }
{
    certifier::encode_answer(frame_table::write(rows, file))
}

// Writes lengths to a file.
#[unsafe(no_mangle)]
pub extern "C" fn test_write_lengths(lengths: &[u32], file: &mut [u8]) -> i64
    ensures value { result ≡ encode_answer (write_lengths_answer lengths.now file.old) }
    ensures file_after { file.new ≡ area_after (write_lengths_answer lengths.now file.old) (lengths_text_of (array_of lengths.now)) file.old }
{
    certifier::encode_answer(lengths_file::write(array(lengths), file))
}

// Judges the claim of a row of rows in memory, by the lengths.
#[unsafe(no_mangle)]
pub extern "C" fn test_judge(lengths: &[u32], rows: &[u32], row: u64) -> i64
    ensures { result ≡ encode_judged (judge_row (array_of lengths.now) rows.now row) }
{
    certifier::encode_judgement_of(array(lengths), rows, row)
}

// The precise bound of a row of rows in memory, by the lengths.
#[unsafe(no_mangle)]
pub extern "C" fn test_precise_bound(lengths: &[u32], rows: &[u32], row: u64) -> i64
    ensures { result ≡ encode_bounded (bound_row (array_of lengths.now) rows.now row) }
{
    certifier::encode_bounded(certifier::precise_bound(array(lengths), rows, row))
}
