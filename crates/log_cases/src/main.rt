// Answers the commands check-log, busiest and simulate for the cases on standard input, and prints what each prints.
// A case is a header of 18 bytes, the letter C, B or S, the size of lengths and table (8), the size of all (8) and a line feed, and then
// so many bytes: two arguments (20 each), lengths and table, and the log. An argument that is malformed is said.
#![tactic(auto)]

// The bytes of the arguments.
const ARGUMENTS: usize = 40;

// More than the arguments, lengths and table, and a log of more lines than any.
const BUFFER: usize = 67_200;

fn main(rt: HostRuntime) {
    let mut buffer = [0u8; BUFFER];
    case_reader::run_cases(&mut rt.stdin(), &mut buffer, |letter, part, payload| {
        run(&rt, letter, part, payload)
    });
}

// Answers a case whose lengths and table have `part` bytes.
fn run(rt: &impl Print, letter: u8, part: u64, payload: &[u8]) {
    let Some((arguments, files)) = payload.split_at_checked(ARGUMENTS) else {
        return;
    };
    let Some((input, log)) = files.split_at_checked(part as usize) else {
        return;
    };
    let (first, second) = arguments.split_at(20);
    match letter {
        b'C' => check_log(rt, input, log),
        b'B' => busiest(rt, first, input, log),
        b'S' => simulate(rt, first, second, input),
        _ => {}
    }
}

fn check_log(rt: &impl Print, input: &[u8], log: &[u8]) {
    let mut out = [0u8; log_command::LONGEST];
    let answer = log_command::write_input(input, log, &mut out);
    let _ = rt.write_all(case_reader::reply_text(Some(answer), &out));
}

fn busiest(rt: &impl Print, width: &[u8], input: &[u8], log: &[u8]) {
    let mut out = [0u8; busiest_command::LONGEST];
    let reply = busiest_command::write_input(input, log, width, &mut out);
    let _ = rt.write_all(case_reader::reply_text(reply, &out));
}

fn simulate(rt: &impl Print, seed: &[u8], lines: &[u8], input: &[u8]) {
    let mut out = [0u8; simulator::LONGEST];
    let reply = simulate_command::write_log(seed, lines, input, &mut out);
    let _ = rt.write_all(case_reader::reply_text(reply, &out));
}
