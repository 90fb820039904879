// The entry for C that checks a bus log against its table.
ghost use Rattle.std.specs.Prelude.{◌≡◌, length};
ghost use Rattle.log_check.specs.Returns.{as_shown, files_returns};
ghost use Rattle.certifier.specs.LogEntry.{starts_answered, encode_answered, starts_area};

use crate::encode::encode_turned;
use log_check::GROUPS;

// Writes the starts of groups 1 to 16 at the beginning of the area, and answers how many they are. A refusal leaves the area as it is.
pub fn certifier_check_log(lengths: &[u8], table: &[u8], log: &[u8], starts: &mut [u64]) -> i64
    ensures value { result ≡ encode_answered (starts_answered (files_returns lengths.now table.now log.now) starts.old) }
    ensures starts_after { starts.new ≡ starts_area (files_returns lengths.now table.now log.now) starts.old }
{
    match log_check::check_files(lengths, table, log) {
        Ok(shown) => store_starts(&shown, starts),
        Err(refusal) => encode_turned(log_check::number(refusal.cause), refusal.place),
    }
}

// Stores starts where they have room.
fn store_starts(starts: &[u64], area: &mut [u64]) -> i64
    requires { length starts.now ≡ 16 }
    ensures value { result ≡ encode_answered (starts_answered (as_shown starts.now) area.old) }
    ensures area_after { area.new ≡ starts_area (as_shown starts.now) area.old }
{
    if area.len() < GROUPS {
        // For C: minus (number × 10000 + place).
        return -80_000;
    }
    area[..GROUPS].copy_from_slice(starts);
    GROUPS as i64
}
