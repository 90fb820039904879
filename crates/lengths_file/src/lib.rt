// The file of the lengths: two lines, kind 11 and then kind 29, of nine numbers in columns 5 wide, a line feed after each.
#![tactic(auto)]

mod input;
mod text;

ghost use Rattle.std.specs.Prelude.{◌≡◌, [], ◌∷◌, Ok, Err, MatchResult};
ghost use Rattle.table_checks.specs.Refusal.{check_returns};
ghost use Rattle.table_checks.specs.Checks.{lengths_check, Loadable};
ghost use Rattle.table_checks.specs.Returns.{lengths_returns};
ghost use Rattle.frame_table.specs.Table.{answer_for, area_after, answer_returns, returns_for};
ghost use Rattle.lengths_file.specs.Lengths.{lengths_of, lengths_file_check, lengths_file_returns, loaded as loaded_from, text_of};

use frame_table::no_room;
pub use input::{check_size, lengths_end, read_table};
use table_checks::{Cause, Refusal, check_lengths};

// The characters of a line with its line feed, and those of the file.
pub const LINE: usize = 46;

pub const FILE: usize = 92;

// What reading the file finds: nothing against it, or the first cause; beside it the lengths of kind 11 and of kind 29, zeros where the
// file breaks its notation.
// No Result: it tells the lengths of a file that is turned back, too (clause `value` of `read`); `load` answers one.
#[derive(Clone, Copy)]
pub struct Loaded {
    pub checked: Result<(), Refusal>,
    pub short: [u32; 9],
    pub long: [u32; 9],
}

// Reads lengths.
pub fn read(file: &[u8]) -> Loaded
    ensures value { result ≡ loaded_from file.now }
    ensures in_numbers { check_returns result.checked ≡ lengths_file_returns file.now }
{
    if text::is_text(file) {
        let short = text::line(file, 0);
        let long = text::line(file, 1);
        return Loaded {
            checked: check_lengths([short, long]),
            short,
            long,
        };
    }
    Loaded {
        checked: Err(Refusal {
            cause: Cause::LengthsFile,
            place: 0,
        }),
        short: [0; 9],
        long: [0; 9],
    }
}

// The lengths that were read, as an array of two arrays.
pub fn lengths_of(loaded: Loaded) -> [[u32; 9]; 2]
    ensures { result ≡ loaded.short ∷ loaded.long ∷ [] }
{
    let Loaded { short, long, .. } = loaded;
    [short, long]
}

// Reads lengths that pass their check, as an array of two arrays, or why the file is turned back.
pub fn load(file: &[u8]) -> Result<[[u32; 9]; 2], Refusal>
    ensures { MatchResult result (λ ls. (lengths_file_check file.now ≡ Ok tt) × (ls ≡ lengths_of file.now) × Loadable ls) (λ r. lengths_file_check file.now ≡ Err r) }
{
    let loaded = read(file);
    loaded.checked?;
    Ok(lengths_of(loaded))
}

// Writes lengths to a file. A refusal leaves it as it is.
pub fn write(lengths: [[u32; 9]; 2], file: &mut [u8]) -> Result<usize, Refusal>
    ensures value { result ≡ answer_for (lengths_check lengths) (text_of lengths) file.old }
    ensures file_after { file.new ≡ area_after result (text_of lengths) file.old }
    ensures in_numbers { answer_returns result ≡ returns_for (lengths_returns lengths) (text_of lengths) file.old }
{
    check_lengths(lengths)?;
    if file.len() < FILE {
        return no_room();
    }
    text::write_lines(lengths, file);
    Ok(FILE)
}
