// Does what the command says that is the program's first argument; lengths and a frame table stand on standard input. Another command is a
// variant of Command, a line in `read_command`, an arm in `main` with a function of its own, and a line of the usage text.
#![tactic(auto)]

ghost use Rattle.std.specs.Prelude.{◌≡◌, ◌↔◌, IsTrue, IfSome};
ghost use Rattle.console.specs.Steps.{IsPrefixLen};

use console::{BUFFER, Streams};
use std::env::FillError;
use std::rt::{Env, Files};
use table_checks::Refusal;

const PROGRAM: &[u8] = b"vinguaru";

// A line more than the longest log.
const LOG: usize = 64_040;

// Room for a line of each row.
const LISTING: usize = 1984;

// Room for any path; a longer argument counts as an empty one.
const ARGUMENT: usize = 4096;

#[derive(Clone, Copy)]
enum Command {
    LoadSheet,
    FrameLength,
    CheckLog,
    Busiest,
    Simulate,
    Explain,
    Worst,
    Faults,
    Unknown,
}

fn main(rt: HostRuntime) {
    match read_command(&rt) {
        Command::LoadSheet => load_sheet(&rt),
        Command::FrameLength => frame_length(&rt),
        Command::CheckLog => check_log(&rt),
        Command::Busiest => busiest(&rt),
        Command::Simulate => simulate(&rt),
        Command::Explain => explain(&rt),
        Command::Worst => worst(&rt),
        Command::Faults => faults(&rt),
        Command::Unknown => print_usage(&rt),
    }
}

// The command that the program is called with.
fn read_command(env: &impl Env) -> Command {
    if is_called(env, b"load-sheet", 0) {
        return Command::LoadSheet;
    }
    if is_called(env, b"frame-length", 3) {
        return Command::FrameLength;
    }
    if is_called(env, b"check-log", 1) {
        return Command::CheckLog;
    }
    if is_called(env, b"busiest", 2) {
        return Command::Busiest;
    }
    if is_called(env, b"simulate", 2) {
        return Command::Simulate;
    }
    if is_called(env, b"explain", 1) {
        return Command::Explain;
    }
    if is_called(env, b"worst", 0) {
        return Command::Worst;
    }
    if is_called(env, b"faults", 1) {
        return Command::Faults;
    }
    Command::Unknown
}

// Says how the program is used.
fn print_usage(rt: &impl Streams) {
    let usage =
        b"usage: vinguaru COMMAND\nINPUT is a file of lengths, 92 bytes, and behind it that of a table.\ncommands:\n  load-sheet < INPUT                 each node's bus load, and the greatest of them\n  frame-length KIND IDENTIFIER HEX   the exact length of a frame on the wire; HEX are its payload's bytes, - for none\n  check-log LOGFILE < INPUT          the groups' starts with which a bus log is the beginning of a schedule\n  busiest LOGFILE WIDTH < INPUT      the busiest stretch of so many ticks of a bus log, and what it shows of each row\n  simulate SEED LINES < INPUT        a log of so many lines, drawn from a seed by the bus rule\n  explain ROW < INPUT                the judgement of a row, counted from 0, and the case that breaks its claim\n  worst < INPUT                      the judgement of the frame that ranks last, and the starts with which its precise bound is reached\n  faults GAP < INPUT                 the listing of the table where bus faults begin at least so many ticks apart\n";
    let _ = rt.errors().write_all(usage);
}

// Prints what a command has written, or how the program is used where an argument breaks its notation.
fn print_reply(rt: &impl Streams, reply: Option<Result<usize, Refusal>>, text: &[u8]) {
    match reply {
        None => print_usage(rt),
        Some(answer) => console::print_answer(rt, PROGRAM, answer, text),
    }
}

// Whether the first argument is the word, and so many more follow it.
fn is_called(env: &impl Env, word: &[u8], more: u8) -> bool {
    let last = 1 + more as usize;
    if !has_argument(env, last) || has_argument(env, last + 1) {
        return false;
    }
    let mut space = [0u8; ARGUMENT];
    let n = argument(env, 1, &mut space);
    is_word(&space[..n], word)
}

// Whether the program is called with an argument i, of any length; argument 0 is its name.
fn has_argument(env: &impl Env, i: usize) -> bool {
    let mut space = [0u8; 1];
    match env.arg(i, &mut space) {
        Ok(_) => true,
        Err(FillError::TooLong) => true,
        Err(FillError::NotPresent) => false,
    }
}

// Puts argument i at the start of a buffer, and answers its length; 0 where it has no room there.
fn argument(env: &impl Env, i: usize, space: &mut [u8]) -> usize
    ensures { IsPrefixLen result space.new }
{
    env.arg(i, space).unwrap_or(0)
}

// Whether two words are the same.
fn is_word(a: &[u8], b: &[u8]) -> bool
    ensures { IsTrue result ↔ (a.now ≡ b.now) }
{
    a == b
}

// Reads the input, lets a command write about it into the text, and prints that.
fn with_input<F: FnOnce(&[u8], &mut [u8]) -> Option<Result<usize, Refusal>>>(
    rt: &impl Streams,
    text: &mut [u8],
    command: F,
)
    requires { F.IsAlwaysCallable command }
{
    let mut bytes = [0u8; BUFFER];
    let Some(size) = console::read_input(rt, PROGRAM, &mut bytes) else {
        return;
    };
    let reply = command(&bytes[..size], text);
    print_reply(rt, reply, text);
}

// Prints the load sheet of the table, or its refusal.
fn load_sheet(rt: &impl Streams) {
    let mut sheet = [0u8; load_sheet::LONGEST];
    with_input(rt, &mut sheet, |input, out| {
        Some(load_sheet::write_input(input, out))
    });
}

// Prints the exact length of the frame that the arguments name, or its refusal.
fn frame_length(rt: &(impl Streams + Env)) {
    let mut kind = [0u8; ARGUMENT];
    let k = argument(rt, 2, &mut kind);
    let mut identifier = [0u8; ARGUMENT];
    let i = argument(rt, 3, &mut identifier);
    let mut hex = [0u8; ARGUMENT];
    let h = argument(rt, 4, &mut hex);
    let mut line = [0u8; frame_length_command::LONGEST];
    let reply = frame_length_command::write_line(
        &kind[..k],
        &identifier[..i],
        &hex[..h],
        &mut line,
    );
    print_reply(rt, reply, &line);
}

// Prints the starts of the groups that explain the log, or the log's refusal. A longer log is turned back by its length alone.
fn check_log(rt: &(impl Streams + Env + Files)) {
    let mut log = [0u8; LOG];
    let Some(length) = read_log(rt, &mut log) else {
        return;
    };
    let log = &log[..length];
    let mut text = [0u8; log_command::LONGEST];
    with_input(rt, &mut text, |input, out| {
        Some(log_command::write_input(input, log, out))
    });
}

// Prints the busiest stretch of the log and what it shows of each row, or the log's refusal.
fn busiest(rt: &(impl Streams + Env + Files)) {
    let mut width = [0u8; ARGUMENT];
    let w = argument(rt, 3, &mut width);
    let mut log = [0u8; LOG];
    let Some(length) = read_log(rt, &mut log) else {
        return;
    };
    let width = &width[..w];
    let log = &log[..length];
    let mut text = [0u8; busiest_command::LONGEST];
    with_input(rt, &mut text, |input, out| {
        busiest_command::write_input(input, log, width, out)
    });
}

// Reads the log in the file that the argument behind the command names.
fn read_log(rt: &(impl Streams + Env + Files), log: &mut [u8]) -> Option<usize>
    ensures { IfSome result (λ size. IsPrefixLen size log.new) }
{
    let mut path = [0u8; ARGUMENT];
    let n = argument(rt, 2, &mut path);
    console::read_file(rt, PROGRAM, &path[..n], log)
}

// Prints a log that is drawn from the seed, or its refusal.
fn simulate(rt: &(impl Streams + Env)) {
    let mut seed = [0u8; ARGUMENT];
    let s = argument(rt, 2, &mut seed);
    let mut lines = [0u8; ARGUMENT];
    let n = argument(rt, 3, &mut lines);
    let seed = &seed[..s];
    let lines = &lines[..n];
    let mut log = [0u8; simulator::LONGEST];
    with_input(rt, &mut log, |input, out| {
        simulate_command::write_log(seed, lines, input, out)
    });
}

// Prints the judgement of a row with the case that breaks its claim, or its refusal.
fn explain(rt: &(impl Streams + Env)) {
    let mut row = [0u8; ARGUMENT];
    let r = argument(rt, 2, &mut row);
    let row = &row[..r];
    let mut text = [0u8; explain_command::LONGEST];
    with_input(rt, &mut text, |input, out| {
        explain_command::write_input(input, row, out)
    });
}

// Prints the line of the frame that ranks last and its worst case, or the table's refusal.
fn worst(rt: &impl Streams) {
    let mut text = [0u8; worst_command::LONGEST];
    with_input(rt, &mut text, |input, out| {
        Some(worst_command::write_input(input, out))
    });
}

// Prints the listing of the table under faults, or its refusal.
fn faults(rt: &(impl Streams + Env)) {
    let mut gap = [0u8; ARGUMENT];
    let g = argument(rt, 2, &mut gap);
    let gap = &gap[..g];
    let mut listing = [0u8; LISTING];
    with_input(rt, &mut listing, |input, out| {
        faults_command::write_input(input, gap, out)
    });
}
