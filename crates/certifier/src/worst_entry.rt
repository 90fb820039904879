// The entry for C that judges the frame that ranks last and shows its worst case.
ghost use Rattle.std.specs.Prelude.{◌≡◌, [], ◌∷◌, ◌++◌, ◌≤◌, length, drop};
ghost use Rattle.certifier.specs.Steps.{Encodable};
ghost use Rattle.certifier.specs.WorstEntry.{worst_file, encode_worst, worst_after};

use crate::encode::{encode_judged, encode_refusal};
use crate::explain_entry::write_case;
use row_judgement::Refusal;
use worst_case::{LastFrame, worst};

// The starts of the groups, the instance, and its response.
const SHOWN: usize = 18;

// Judges the claim of the frame that ranks last, by the lengths, and shows its worst case, where its precise bound can be had and every
// offset is below its period: the starts of groups 1 to 16, the instance, from 0, and its response. Where none is shown, or the call is
// turned back, the area is left as it is.
pub fn certifier_worst(lengths: &[u8], table: &[u8], shown: &mut [u32]) -> i64
    ensures value { result ≡ encode_worst (worst_file lengths.now table.now) (length shown.old) }
    ensures shown_after { shown.new ≡ worst_after (worst_file lengths.now table.now) shown.old }
{
    let mut rows = [0u32; table_checks::MOST_NUMBERS];
    match lengths_file::read_table(lengths, table, &mut rows) {
        Ok(table) => show_last(worst(table.lengths, table.rows), shown),
        Err(refusal) => encode_refusal(Refusal::from(refusal)),
    }
}

// Shows the worst case, if there is one and room for it, and answers the judge's number.
fn show_last(last: LastFrame, shown: &mut [u32]) -> i64
    requires { Encodable last.judged }
    ensures value { result ≡ encode_worst last (length shown.old) }
    ensures shown_after { shown.new ≡ worst_after last shown.old }
{
    if let Some(worst) = last.worst {
        if shown.len() < SHOWN {
            // For C: minus (number × 10000 + place).
            return -80_000;
        }
        write_worst(worst.starts, worst.instance, worst.response, shown);
    }
    encode_judged(last.judged)
}

// Writes the starts, and the instance and its response behind them.
fn write_worst(starts: [u32; 16], instance: u32, response: u32, shown: &mut [u32])
    requires { 18 ≤ length shown.old }
    ensures { shown.new ≡ ((starts ++ (instance ∷ [])) ++ (response ∷ [])) ++ drop 18 shown.old }
{
    write_case(starts, instance, shown);
    shown[SHOWN - 1] = response;
}
