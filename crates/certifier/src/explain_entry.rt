// The entry for C that judges a row and shows the case that breaks its claim.
ghost use Rattle.std.specs.Prelude.{◌≡◌, [], ◌∷◌, ◌++◌, ◌≤◌, length, drop};
ghost use Rattle.certifier.specs.Steps.{Encodable};
ghost use Rattle.certifier.specs.ExplainEntry.{explain_file, encode_explained, shown_after};

use crate::encode::{encode_judged, encode_refusal};
use row_judgement::{Explained, Refusal, explain};

// The alignments of the groups, and the instance.
const GROUPS: usize = 16;

const SHOWN: usize = 17;

// Judges the claim of a row of the table, by the lengths, and shows the case that breaks it, if its verdict is 3: the alignments of groups 1 to
// 16, and then the instance. Where there is none, or the call is turned back, the area is left as it is.
pub fn certifier_explain(lengths: &[u8], table: &[u8], row: u64, shown: &mut [u32]) -> i64
    ensures value { result ≡ encode_explained (explain_file lengths.now table.now row) (length shown.old) }
    ensures shown_after { shown.new ≡ shown_after (explain_file lengths.now table.now row) shown.old }
{
    let mut rows = [0u32; table_checks::MOST_NUMBERS];
    match lengths_file::read_table(lengths, table, &mut rows) {
        Ok(table) => show(explain(table.lengths, table.rows, row), shown),
        Err(refusal) => encode_refusal(Refusal::from(refusal)),
    }
}

// Shows the case, if there is one and room for it, and answers the judge's number.
pub fn show(explained: Explained, shown: &mut [u32]) -> i64
    requires { Encodable explained.judged }
    ensures value { result ≡ encode_explained explained (length shown.old) }
    ensures shown_after { shown.new ≡ shown_after explained shown.old }
{
    if let Some(case) = explained.breaking {
        if shown.len() < SHOWN {
            // For C: minus (number × 10000 + place).
            return -80_000;
        }
        write_case(case.alignments, case.instance, shown);
    }
    encode_judged(explained.judged)
}

// Writes the alignments, and the instance behind them.
pub fn write_case(alignments: [u32; 16], q: u32, shown: &mut [u32])
    requires { 17 ≤ length shown.old }
    ensures { shown.new ≡ (alignments ++ (q ∷ [])) ++ drop 17 shown.old }
{
    shown[0..GROUPS].copy_from_slice(&alignments);
    shown[GROUPS] = q;
}
