// Lengths as numbers one after the other: nine of kind 11, then nine of kind 29. Those that are missing are 0.
ghost use Rattle.std.specs.Prelude.{◌≡◌, ◌≤◌};
ghost use Rattle.test_entries.specs.Lengths.{line_from, array_of};

const PAYLOADS: usize = 9;

// Nine numbers from a place on.
fn line(numbers: &[u32], from: usize) -> [u32; 9]
    requires { from ≤ 9 }
    ensures { result ≡ line_from numbers.now from }
{
    let mut line = [0u32; PAYLOADS];
    for s in 0..PAYLOADS {
        line[s] = numbers.get(from + s).copied().unwrap_or(0);
    }
    line
}

// The array of two arrays that the numbers stand for.
pub fn array(numbers: &[u32]) -> [[u32; 9]; 2]
    ensures { result ≡ array_of numbers.now }
{
    let short = line(numbers, 0);
    let long = line(numbers, PAYLOADS);
    [short, long]
}
