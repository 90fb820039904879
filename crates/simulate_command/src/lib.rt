// The command simulate: seed and lines as they are typed, and what is printed.
#![tactic(auto)]

ghost use Rattle.std.specs.Prelude.{◌≡◌, Ok};
ghost use Rattle.decimal.specs.Decimal.{read_column};
ghost use Rattle.frame_table.specs.Table.{answer_for, area_after};
ghost use Rattle.simulator.specs.Simulate.{simulated_returns};
ghost use Rattle.certifier.specs.Reply.{area_left};
ghost use Rattle.simulate_command.specs.Command.{printed, reply_for, text_for};
ghost use Rattle.simulate_command.specs.Steps.{answer_after, area_printed};

use certifier::write_refusal_line;
use simulator::Refusal;

const GREATEST_SEED: u64 = 4_294_967_295;

// Writes the log, or the line of its refusal. Lengths and table stand in the input: its first 92 bytes are the file of the lengths, and
// the rest is that of the table.
pub fn write_log(
    seed: &[u8],
    lines: &[u8],
    input: &[u8],
    out: &mut [u8],
) -> Option<Result<usize, table_checks::Refusal>>
    ensures value { result ≡ reply_for (read_column seed.now) (read_column lines.now) input.now out.old }
    ensures out_after { out.new ≡ area_left result (text_for (read_column seed.now) (read_column lines.now) input.now out.old) out.old }
{
    let seed = decimal::read(seed)?;
    let lines = decimal::read(lines)?;
    if GREATEST_SEED < seed {
        return None;
    }
    Some(write_simulated(seed as u32, lines, input, out))
}

// Simulates, and writes the log or the line of its refusal.
fn write_simulated(
    seed: u32,
    lines: u64,
    input: &[u8],
    out: &mut [u8],
) -> Result<usize, table_checks::Refusal>
    ensures value { result ≡ answer_for (Ok tt) (printed seed lines input.now out.old) out.old }
    ensures out_after { out.new ≡ area_after result (printed seed lines input.now out.old) out.old }
{
    let simulated = simulator::simulate_input(input, seed, lines, out);
    write_answer(simulated, out)
}

// Leaves a log that was written, and else writes the line of the refusal.
fn write_answer(
    simulated: Result<usize, Refusal>,
    out: &mut [u8],
) -> Result<usize, table_checks::Refusal>
    ensures value { result ≡ answer_after (simulated_returns simulated) out.old }
    ensures out_after { out.new ≡ area_printed (simulated_returns simulated) out.old }
{
    match simulated {
        Ok(n) => Ok(n),
        Err(refusal) => write_refusal_line(refusal.number(), refusal.place(), out),
    }
}
