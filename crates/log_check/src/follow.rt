// A log whose lines are in the notation, followed line by line.
ghost use Rattle.std.specs.Prelude.{◌≡◌, map, ◌≤◌, length, None, MatchResult};
ghost use Rattle.arith.specs.Lists.{range};
ghost use Rattle.table_checks.specs.Table.{frames};
ghost use Rattle.bus_log.specs.Follow.{follow_log, start_shown};
ghost use Rattle.log_check.specs.Check.{first_broken, lines_of, followed_answer};

use crate::text::line_of;
use crate::{Cause, GROUPS, Refusal, refuse_at};
use bus_log::Progress;
use log_reader::LINE;
use table_checks::Table;

// The answer to it.
pub fn answer(table: &Table, text: &[u8]) -> Result<[u64; 16], Refusal>
    requires { (length text.now ≤ 64000) × (first_broken text.now ≡ None) }
    ensures { result ≡ followed_answer (frames table.now) table.now.rows.now (lines_of text.now) }
{
    match follow_log(table, text) {
        Ok(p) => Ok(shown_starts(p)),
        Err(place) => refuse_at(Cause::Contradiction, place as u32),
    }
}

// The log followed to its end, or the first line, from 1, that no starts allow.
fn follow_log(table: &Table, text: &[u8]) -> Result<Progress, usize>
    requires { (length text.now ≤ 64000) × (first_broken text.now ≡ None) }
    ensures { MatchResult result (λ p. follow_log (frames table.now) table.now.rows.now (lines_of text.now) ≡ record { place = 0; progress = p }) (λ k. (1 ≤ k) × ((follow_log (frames table.now) table.now.rows.now (lines_of text.now)).place ≡ k)) }
{
    let n = text.len() / LINE;
    let mut p = bus_log::begin();
    for i in 0..n {
        let e = bus_log::entry_of(table.rows, line_of(text, i));
        p = bus_log::follow_line(table.lengths, table.rows, p, i, e)?;
    }
    Ok(p)
}

// The starts of groups 1 to 16.
fn shown_starts(p: Progress) -> [u64; 16]
    ensures { result ≡ map (start_shown p) (range 1 16) }
{
    let mut starts = [0u64; GROUPS];
    for i in 0..GROUPS {
        starts[i] = bus_log::start_shown(p, (i + 1) as u32);
    }
    starts
}
