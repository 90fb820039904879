// Lines that number values from 1: the number, the value, and a line feed.
ghost use Rattle.std.specs.Prelude.{◌≡◌, ◌+◌, ◌*◌, length};
ghost use Rattle.decimal.specs.Numbered.{numbered_line, numbered_lines};

use crate::write;

// The characters of a value's column, and of its line.
const WIDTH: usize = 8;

const LINE: usize = 12;

const LINE_FEED: u8 = 10;

// Writes a line for each value, over all of an area.
pub fn write_numbered(values: &[u32], out: &mut [u8])
    requires { length out.old ≡ 12 * length values.now }
    ensures { out.new ≡ numbered_lines 8 values.now (length values.now) 0 }
{
    for (i, value) in values.iter().enumerate() {
        let from = LINE * i;
        let to = from + LINE;
        write_numbered_line((i + 1) as u64, u64::from(*value), WIDTH, &mut out[from..to]);
    }
}

// Writes a number (3) and a value of a width, and a line feed.
pub fn write_numbered_line(number: u64, value: u64, width: usize, line: &mut [u8])
    requires { length line.old ≡ width + 4 }
    ensures { line.new ≡ numbered_line width number value }
{
    let end = 3 + width;
    write(&mut line[0..3], number);
    write(&mut line[3..end], value);
    line[end] = LINE_FEED;
}
