// The text form of a table: lines of columns and a line feed.
ghost use Rattle.std.specs.Prelude.{◌≡◌, ◌+◌, ◌*◌, ◌<◌, ◌≤◌, ◌++◌, length, take, drop};
ghost use Rattle.decimal.specs.Decimal.{read_column};
ghost use Rattle.table_checks.specs.Columns.{start_of, columns, line_length};
ghost use Rattle.frame_table.specs.Text.{field_of, column_at, field_at, fields_from, line_of, lines_from};

use table_checks::{LINE, MALFORMED, ROW, UNTERMINATED};

// Where each column starts, and after the last the line feed.
const STARTS: [usize; ROW + 1] = [0, 3, 6, 16, 19, 21, 29, 37, 45];

const LINE_FEED: u8 = 10;

fn start(j: usize) -> usize
    requires { j ≤ columns }
    ensures { result ≡ start_of j }
{
    STARTS[j]
}

// The number in column j of line i.
fn column(file: &[u8], i: usize, j: usize) -> u64
    requires { (line_length * i + line_length ≤ length file.now) × (j < columns) }
    ensures { result ≡ field_of (read_column (column_at file.now i j)) }
{
    let from = LINE * i + start(j);
    let to = LINE * i + start(j + 1);
    // The mark stands among the fields: a Result for each would double the memory of the longest table.
    decimal::read(&file[from..to]).unwrap_or(MALFORMED)
}

// Field j of line i.
fn field(file: &[u8], i: usize, j: usize) -> u64
    requires { (line_length * i + line_length ≤ length file.now) × (j < columns) }
    ensures { result ≡ field_at file.now i j }
{
    if j == 0 && file[LINE * i + LINE - 1] != LINE_FEED {
        UNTERMINATED
    } else {
        column(file, i, j)
    }
}

// Reads the fields of the file's lines.
pub fn read_fields(file: &[u8], lines: usize, fields: &mut [u64])
    requires { (line_length * lines ≤ length file.now) × (columns * lines ≤ length fields.old) }
    ensures { take (columns * lines) fields.new ≡ fields_from file.now (columns * lines) 0 }
{
    for k in 0..ROW * lines {
        fields[k] = field(file, k / ROW, k % ROW);
    }
}

// Writes line i of the rows.
fn write_line(rows: &[u32], i: usize, line: &mut [u8])
    requires { (columns * i + columns ≤ length rows.now) × (length line.old ≡ line_length) }
    ensures { line.new ≡ line_of rows.now i }
{
    for j in 0..ROW {
        let from = start(j);
        let to = start(j + 1);
        let value = u64::from(rows[ROW * i + j]);
        decimal::write(&mut line[from..to], value);
    }
    line[LINE - 1] = LINE_FEED;
}

// Writes the lines of the rows.
pub fn write_lines(rows: &[u32], lines: usize, file: &mut [u8])
    requires { (columns * lines ≤ length rows.now) × (line_length * lines ≤ length file.old) }
    ensures { file.new ≡ lines_from rows.now lines 0 ++ drop (line_length * lines) file.old }
{
    for i in 0..lines {
        let from = LINE * i;
        let to = from + LINE;
        write_line(rows, i, &mut file[from..to]);
    }
}
