// The entry for C that simulates a bus.
ghost use Rattle.std.specs.Prelude.{◌≡◌};
ghost use Rattle.simulator.specs.Simulate.{area_left, simulated_returns};
ghost use Rattle.certifier.specs.LogEntry.{encode_answered};
ghost use Rattle.certifier.specs.SimulateEntry.{log_of_files, simulate_answer, CountableLog};

use crate::encode::encode_turned;
use simulator::Refusal;

// Writes a log of so many lines of the table, by the lengths, from a seed, and answers its length. A refusal leaves the output as it is.
pub fn certifier_simulate(
    lengths: &[u8],
    table: &[u8],
    seed: u32,
    lines: u64,
    out: &mut [u8],
) -> i64
    ensures value { result ≡ encode_answered (simulated_returns (simulate_answer lengths.now table.now seed lines out.old)) }
    ensures out_after { out.new ≡ area_left (simulate_answer lengths.now table.now seed lines out.old) (log_of_files lengths.now table.now seed lines) out.old }
{
    encode_simulated(simulator::simulate_files(lengths, table, seed, lines, out))
}

// How many bytes were written, or the refusal.
fn encode_simulated(simulated: Result<usize, Refusal>) -> i64
    requires { CountableLog simulated }
    ensures { result ≡ encode_answered (simulated_returns simulated) }
{
    match simulated {
        Ok(n) => n as i64,
        Err(refusal) => encode_turned(refusal.number(), refusal.place()),
    }
}
