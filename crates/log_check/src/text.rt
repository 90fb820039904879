// Whether a text is a log in its notation.
ghost use Rattle.std.specs.Prelude.{◌≡◌, ◌*◌, ◌≤◌, ◌<◌, length};
ghost use Rattle.log_reader.specs.Text.{Stands, line_at};
ghost use Rattle.log_reader.specs.Laws.{Small};
ghost use Rattle.log_check.specs.Check.{is_missized, is_broken, first_broken};

use bus_log::Line;
use log_reader::LINE;

// The most characters of a log.
const MOST: usize = 64_000;

// Whether a log's length is none that it can have.
#[tactic(auto, unfolding(crate::specs::Check::is_missized))]
pub fn is_missized(size: usize) -> bool
    ensures { result ≡ is_missized size }
{
    size % LINE != 0 || MOST < size
}

// Whether line i breaks the notation or the limits.
#[tactic(auto, unfolding(crate::specs::Check::is_broken))]
fn is_broken(text: &[u8], i: usize) -> bool
    requires { i < 1600 }
    ensures { result ≡ is_broken text.now i }
{
    log_reader::line(text, LINE * i).is_err()
}

// The first line that does.
pub fn first_broken(text: &[u8]) -> Option<u32>
    requires { length text.now ≤ 64000 }
    ensures { result ≡ first_broken text.now }
{
    let n = text.len() / LINE;
    for i in 0..n {
        if is_broken(text, i) {
            return Some(i as u32);
        }
    }
    None
}

// Line i, where it is in the notation.
pub fn line_of(text: &[u8], i: usize) -> Line
    requires { (i < 1600) × Stands text.now (40 * i) (line_at text.now (40 * i)) }
    ensures value { result ≡ line_at text.now (40 * i) }
    ensures small { Small result }
{
    log_reader::line(text, LINE * i).unwrap()
}
