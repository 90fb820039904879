// The entries of certifier for C (include/certifier.h): a static library whose exports call certifier's functions of the same names, with the
// same clauses.
#![tactic(auto)]

ghost use Rattle.std.specs.Prelude.{◌≡◌, length};
ghost use Rattle.bus_model.specs.declared.Faults.TheVariants.{Never};
ghost use Rattle.frame_table.specs.Text.{fields_of};
ghost use Rattle.frame_table.specs.Table.{area_after};
ghost use Rattle.lengths_file.specs.Lengths.{lengths_of};
ghost use Rattle.load_sheet.specs.Sheet.{sheet_of};
ghost use Rattle.frame_length.specs.FrameLength.{frame_returns};
ghost use Rattle.log_check.specs.Check.{lines_of};
ghost use Rattle.log_check.specs.Returns.{files_returns};
ghost use Rattle.log_load.specs.Sheet.{sheet_of as log_sheet_of};
ghost use Rattle.log_load.specs.Answer.{file_answer, area_after as log_area_after};
ghost use Rattle.log_load.specs.Returns.{file_returns};
ghost use Rattle.simulator.specs.Simulate.{area_left, simulated_returns};
ghost use Rattle.certifier.specs.Encode.{judge_file, bound_file, list_answer, sheet_answer, encode_judged, encode_bounded, encode_answer};
ghost use Rattle.certifier.specs.ExplainEntry.{explain_file, encode_explained, shown_after};
ghost use Rattle.certifier.specs.FaultsEntry.{judge_faults_file, explain_faults_file};
ghost use Rattle.certifier.specs.FaultsListing.{listed_file, list_faults_returns};
ghost use Rattle.certifier.specs.FrameEntry.{encode_frame};
ghost use Rattle.certifier.specs.Listing.{listing_of};
ghost use Rattle.certifier.specs.LogEntry.{starts_answered, encode_answered, starts_area};
ghost use Rattle.certifier.specs.SimulateEntry.{log_of_files, simulate_answer};
ghost use Rattle.certifier.specs.WorstEntry.{worst_file, encode_worst, worst_after};

// Judges the claim of a row of the table, by the lengths.
#[unsafe(no_mangle)]
pub extern "C" fn certifier_judge(lengths: &[u8], table: &[u8], row: u64) -> i64
    ensures { result ≡ encode_judged (judge_file lengths.now table.now row) }
{
    certifier::certifier_judge(lengths, table, row)
}

// Judges it, and shows the case that breaks it, if its verdict is 3.
#[unsafe(no_mangle)]
pub extern "C" fn certifier_explain(
    lengths: &[u8],
    table: &[u8],
    row: u64,
    shown: &mut [u32],
) -> i64
    ensures value { result ≡ encode_explained (explain_file lengths.now table.now row) (length shown.old) }
    ensures shown_after { shown.new ≡ shown_after (explain_file lengths.now table.now row) shown.old }
{
    certifier::certifier_explain(lengths, table, row, shown)
}

// Judges the claim where faults begin at least `gap` ticks apart.
#[unsafe(no_mangle)]
pub extern "C" fn certifier_judge_faults(lengths: &[u8], table: &[u8], row: u64, gap: u64) -> i64
    ensures { result ≡ encode_judged (judge_faults_file lengths.now table.now row gap) }
{
    certifier::certifier_judge_faults(lengths, table, row, gap)
}

// Judges the same, and shows the case that breaks the claim, if its verdict is 3.
#[unsafe(no_mangle)]
pub extern "C" fn certifier_explain_faults(
    lengths: &[u8],
    table: &[u8],
    row: u64,
    gap: u64,
    shown: &mut [u32],
) -> i64
    ensures value { result ≡ encode_explained (explain_faults_file lengths.now table.now row gap) (length shown.old) }
    ensures shown_after { shown.new ≡ shown_after (explain_faults_file lengths.now table.now row gap) shown.old }
{
    certifier::certifier_explain_faults(lengths, table, row, gap, shown)
}

// The precise bound of a row of the table, by the lengths.
#[unsafe(no_mangle)]
pub extern "C" fn certifier_precise_bound(lengths: &[u8], table: &[u8], row: u64) -> i64
    ensures { result ≡ encode_bounded (bound_file lengths.now table.now row) }
{
    certifier::certifier_precise_bound(lengths, table, row)
}

// Judges the claim of the frame that ranks last, and shows its worst case, where it can be had.
#[unsafe(no_mangle)]
pub extern "C" fn certifier_worst(lengths: &[u8], table: &[u8], shown: &mut [u32]) -> i64
    ensures value { result ≡ encode_worst (worst_file lengths.now table.now) (length shown.old) }
    ensures shown_after { shown.new ≡ worst_after (worst_file lengths.now table.now) shown.old }
{
    certifier::certifier_worst(lengths, table, shown)
}

// Lists the judgements of the table, by the lengths, and answers the listing's length.
#[unsafe(no_mangle)]
pub extern "C" fn certifier_list(lengths: &[u8], table: &[u8], out: &mut [u8]) -> i64
    ensures value { result ≡ encode_answer (list_answer lengths.now table.now out.old) }
    ensures out_after { out.new ≡ area_after (list_answer lengths.now table.now out.old) (listing_of Never (lengths_of lengths.now) (fields_of table.now)) out.old }
{
    certifier::certifier_list(lengths, table, out)
}

// Lists the same where faults begin at least `gap` ticks apart.
#[unsafe(no_mangle)]
pub extern "C" fn certifier_list_faults(
    lengths: &[u8],
    table: &[u8],
    gap: u64,
    out: &mut [u8],
) -> i64
    ensures value { result ≡ encode_answered (list_faults_returns lengths.now table.now gap out.old) }
    ensures out_after { out.new ≡ listed_file lengths.now table.now gap out.old }
{
    certifier::certifier_list_faults(lengths, table, gap, out)
}

// Writes the load sheet of the table, by the lengths, and answers its length.
#[unsafe(no_mangle)]
pub extern "C" fn certifier_load_sheet(lengths: &[u8], table: &[u8], out: &mut [u8]) -> i64
    ensures value { result ≡ encode_answer (sheet_answer lengths.now table.now out.old) }
    ensures out_after { out.new ≡ area_after (sheet_answer lengths.now table.now out.old) (sheet_of (lengths_of lengths.now) (fields_of table.now)) out.old }
{
    certifier::certifier_load_sheet(lengths, table, out)
}

// Checks a bus log against the table, and stores the starts of the groups.
#[unsafe(no_mangle)]
pub extern "C" fn certifier_check_log(
    lengths: &[u8],
    table: &[u8],
    log: &[u8],
    starts: &mut [u64],
) -> i64
    ensures value { result ≡ encode_answered (starts_answered (files_returns lengths.now table.now log.now) starts.old) }
    ensures starts_after { starts.new ≡ starts_area (files_returns lengths.now table.now log.now) starts.old }
{
    certifier::certifier_check_log(lengths, table, log, starts)
}

// Writes the sheet of a log, for stretches of `width` ticks, and answers its length.
#[unsafe(no_mangle)]
pub extern "C" fn certifier_busiest(
    lengths: &[u8],
    table: &[u8],
    log: &[u8],
    width: u64,
    out: &mut [u8],
) -> i64
    ensures value { result ≡ encode_answered (file_returns lengths.now table.now log.now width out.old) }
    ensures out_after { out.new ≡ log_area_after (file_answer lengths.now table.now log.now width out.old) (log_sheet_of (fields_of table.now) (lines_of log.now) width) out.old }
{
    certifier::certifier_busiest(lengths, table, log, width, out)
}

// Writes a log of so many lines of the table, by the lengths, from a seed, and answers its length.
#[unsafe(no_mangle)]
pub extern "C" fn certifier_simulate(
    lengths: &[u8],
    table: &[u8],
    seed: u32,
    lines: u64,
    out: &mut [u8],
) -> i64
    ensures value { result ≡ encode_answered (simulated_returns (simulate_answer lengths.now table.now seed lines out.old)) }
    ensures out_after { out.new ≡ area_left (simulate_answer lengths.now table.now seed lines out.old) (log_of_files lengths.now table.now seed lines) out.old }
{
    certifier::certifier_simulate(lengths, table, seed, lines, out)
}

// The length of the data frame in ticks, or minus (number × 10000 + place).
#[unsafe(no_mangle)]
pub extern "C" fn certifier_frame_length(kind: u32, identifier: u32, payload: &[u8]) -> i64
    ensures { result ≡ encode_frame (frame_returns kind identifier payload.now) }
{
    certifier::certifier_frame_length(kind, identifier, payload)
}
