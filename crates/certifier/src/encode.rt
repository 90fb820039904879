// The entries for C: lengths and a table as bytes, and one signed number as the answer.
ghost use Rattle.std.specs.Prelude.{◌≡◌, ◌+◌, ◌*◌, pos, neg_ℤ, Ok};
ghost use Rattle.frame_table.specs.Text.{fields_of};
ghost use Rattle.frame_table.specs.Table.{area_after};
ghost use Rattle.lengths_file.specs.Lengths.{lengths_of};
ghost use Rattle.row_judgement.specs.Judge.{judge_row};
ghost use Rattle.load_sheet.specs.Sheet.{sheet_of};
ghost use Rattle.certifier.specs.Encode.{judge_file, bound_file, list_answer, sheet_answer, encode_refusal, encode_judged, encode_bounded, encode_answer};
ghost use Rattle.bus_model.specs.declared.Faults.TheVariants.{Never};
ghost use Rattle.certifier.specs.Listing.{listing_of};
ghost use Rattle.certifier.specs.Steps.{Encodable, Countable};

use crate::listing::list;
use bus_model::Judgement;
use row_judgement::{Refusal, bound_accepted, judge, judge_accepted, verdict};

// Judges the claim of a row of the table, by the lengths.
pub fn certifier_judge(lengths: &[u8], table: &[u8], row: u64) -> i64
    ensures { result ≡ encode_judged (judge_file lengths.now table.now row) }
{
    encode_judged(judge_file(lengths, table, row))
}

fn judge_file(lengths: &[u8], table: &[u8], row: u64) -> Result<Judgement, Refusal>
    ensures { result ≡ judge_file lengths.now table.now row }
{
    let mut rows = [0u32; table_checks::MOST_NUMBERS];
    let table = lengths_file::read_table(lengths, table, &mut rows)?;
    judge_accepted(&table, row)
}

// The precise bound of a row of the table, by the lengths.
pub fn certifier_precise_bound(lengths: &[u8], table: &[u8], row: u64) -> i64
    ensures { result ≡ encode_bounded (bound_file lengths.now table.now row) }
{
    encode_bounded(bound_file(lengths, table, row))
}

fn bound_file(lengths: &[u8], table: &[u8], row: u64) -> Result<u32, Refusal>
    ensures { result ≡ bound_file lengths.now table.now row }
{
    let mut rows = [0u32; table_checks::MOST_NUMBERS];
    let table = lengths_file::read_table(lengths, table, &mut rows)?;
    bound_accepted(&table, row)
}

// Lists the judgements of the table, by the lengths, and answers the listing's length. A refusal leaves the output as it is.
pub fn certifier_list(lengths: &[u8], table: &[u8], out: &mut [u8]) -> i64
    ensures value { result ≡ encode_answer (list_answer lengths.now table.now out.old) }
    ensures out_after { out.new ≡ area_after (list_answer lengths.now table.now out.old) (listing_of Never (lengths_of lengths.now) (fields_of table.now)) out.old }
{
    encode_answer(list(lengths, table, out))
}

// Writes the load sheet of the table, by the lengths, and answers its length. A refusal leaves the output as it is.
pub fn certifier_load_sheet(lengths: &[u8], table: &[u8], out: &mut [u8]) -> i64
    ensures value { result ≡ encode_answer (sheet_answer lengths.now table.now out.old) }
    ensures out_after { out.new ≡ area_after (sheet_answer lengths.now table.now out.old) (sheet_of (lengths_of lengths.now) (fields_of table.now)) out.old }
{
    encode_answer(load_sheet::write(lengths, table, out))
}

// Judges the claim of a row of rows in memory.
pub fn encode_judgement_of(lengths: [[u32; 9]; 2], rows: &[u32], row: u64) -> i64
    ensures { result ≡ encode_judged (judge_row lengths rows.now row) }
{
    encode_judged(judge(lengths, rows, row))
}

// A refusal in one number.
pub fn encode_refusal(refusal: Refusal) -> i64
    ensures { result ≡ encode_refusal refusal }
{
    encode_turned(row_judgement::number(refusal.cause), refusal.place)
}

// Minus (number × 10000 + place).
pub fn encode_turned(number: u32, place: u32) -> i64
    ensures { result ≡ neg_ℤ (pos (number * 10000 + place)) }
{
    -(i64::from(number) * 10_000 + i64::from(place))
}

// The judgement in one number, or the refusal.
pub fn encode_judged(judged: Result<Judgement, Refusal>) -> i64
    requires { Encodable judged }
    ensures { result ≡ encode_judged judged }
{
    match judged {
        Ok(judgement) => encode_judgement(judgement),
        Err(refusal) => encode_refusal(refusal),
    }
}

// The bound, or the refusal.
pub fn encode_bounded(bounded: Result<u32, Refusal>) -> i64
    ensures { result ≡ encode_bounded bounded }
{
    match bounded {
        Ok(bound) => i64::from(bound),
        Err(refusal) => encode_refusal(refusal),
    }
}

// How many elements were written, or the refusal.
pub fn encode_answer(answer: Result<usize, table_checks::Refusal>) -> i64
    requires { Countable answer }
    ensures { result ≡ encode_answer answer }
{
    match answer {
        Ok(n) => n as i64,
        Err(refusal) => encode_refusal(Refusal::from(refusal)),
    }
}

// Verdict × 10^14 + bound × 10^7 + margin + 10^6.
fn encode_judgement(judgement: Judgement) -> i64
    requires { Encodable (Ok judgement) }
    ensures { result ≡ encode_judged (Ok judgement) }
{
    let verdict = u64::from(verdict(judgement.outcome));
    let parts = verdict * 100_000_000_000_000 + u64::from(judgement.bound) * 10_000_000 + 1_000_000;
    parts as i64 + judgement.margin
}
