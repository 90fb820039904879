// Answers the command frame-length for the arguments on standard input, and prints a line for each.
// A case is a header of 18 bytes, the letter L, a number that is not used (8), the size (8) and a line feed, and then
// so many bytes: kind (20), identifier (20), and the payload's digits. A line is what the command prints, or says that an
// argument is malformed.
#![tactic(auto)]

// Room for a payload; the cases end at a longer one.
const BUFFER: usize = 4096;

// The bytes before the digits.
const NUMBERS: usize = 40;

fn main(rt: HostRuntime) {
    let mut buffer = [0u8; BUFFER];
    case_reader::run_cases(
        &mut rt.stdin(),
        &mut buffer,
        |_, _, payload| run(&rt, payload),
    );
}

fn run(rt: &impl Print, payload: &[u8]) {
    if payload.len() < NUMBERS {
        return;
    }
    let mut line = [0u8; frame_length_command::LONGEST];
    let reply = frame_length_command::write_line(
        &payload[..20],
        &payload[20..NUMBERS],
        &payload[NUMBERS..],
        &mut line,
    );
    let _ = rt.write_all(case_reader::reply_text(reply, &line));
}
