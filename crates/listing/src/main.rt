// Lists the judgements of the frame table on standard input, behind the 92 bytes of the lengths: a line a row, or one line with the
// number and the place of the refusal. Where standard input cannot be read, nothing is judged, and standard error says so.
#![tactic(auto)]

use console::BUFFER;

// Room for a line of each row.
const LISTING: usize = 1984;

fn main(rt: HostRuntime) {
    let mut bytes = [0u8; BUFFER];
    let Some(size) = console::read_input(&rt, b"listing", &mut bytes) else {
        return;
    };
    let mut listing = [0u8; LISTING];
    let answer = certifier::list_input(&bytes[..size], &mut listing);
    console::print_answer(&rt, b"listing", answer, &listing);
}
