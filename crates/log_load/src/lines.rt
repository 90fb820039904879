// The lines of an accepted log.
ghost use Rattle.std.specs.Prelude.{◌≡◌, ◌<◌, ◌≤◌, ◌^◌, length};
ghost use Rattle.bus_log.specs.Log.{last_end};
ghost use Rattle.log_reader.specs.Laws.{Small};
ghost use Rattle.log_load.specs.Steps.{nth};
ghost use Rattle.log_load.specs.Log.{lines};

use crate::Log;
use bus_log::Line;
use log_reader::LINE;

impl<'a> Log<'a> {
    // How many they are.
    pub fn count(&self) -> usize
        ensures value { result ≡ length (lines self.now) }
        ensures few { result ≤ 1600 }
    {
        self.text.len() / LINE
    }

    // Line i, from 0.
    pub fn line(&self, i: usize) -> Line
        requires { i < length (lines self.now) }
        ensures value { result ≡ nth (lines self.now) i }
        ensures small { Small result }
    {
        log_check::line_of(self.text, i)
    }

    // The last end.
    pub fn last_end(&self) -> u64
        ensures value { result ≡ last_end (lines self.now) }
        ensures small { result < 2 ^ 41 }
    {
        let n = self.count();
        if n == 0 {
            return 0;
        }
        let l = self.line(n - 1);
        l.start + l.length
    }
}
