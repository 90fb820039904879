// The command frame-length: kind, identifier and payload as they are typed, and the line that is printed.
#![tactic(auto)]

ghost use Rattle.std.specs.Prelude.{◌≡◌, ◌++◌, ◌/◌, ◌≤◌, length, drop, Ok};
ghost use Rattle.frame_table.specs.Table.{answer_for, area_after};
ghost use Rattle.frame_length.specs.FrameLength.{frame_returns, measured_returns};
ghost use Rattle.certifier.specs.Reply.{area_left};
ghost use Rattle.frame_length_command.specs.Command.{hex_value, is_hex, is_payload, payload_of, length_line, line_of, line_for, reply_for};
ghost use Rattle.frame_length_command.specs.Steps.{Digits};

use certifier::write_refusal_line;
use frame_table::no_room;
use table_checks::is_between;

// The bytes of the longest line.
pub const LONGEST: usize = certifier::REFUSAL_LINE;

const LINE_FEED: u8 = 10;

const DASH: u8 = 45;

const MOST_BYTES: usize = 8;

// Writes the line for the frame that the arguments name: its length, or number and place of its refusal.
pub fn write_line(
    kind: &[u8],
    identifier: &[u8],
    hex: &[u8],
    out: &mut [u8],
) -> Option<Result<usize, table_checks::Refusal>>
    ensures value { result ≡ reply_for kind.now identifier.now hex.now out.old }
    ensures out_after { out.new ≡ area_left result (line_for kind.now identifier.now hex.now) out.old }
{
    let k = decimal::read(kind)?;
    let i = decimal::read(identifier)?;
    if is_payload(hex) {
        Some(write_measured(measure_hex(k, i, hex), out))
    } else {
        None
    }
}

// Whether an argument is a dash, or two digits for each byte.
fn is_payload(s: &[u8]) -> bool
    ensures { result ≡ is_payload s.now }
{
    if s.len() == 1 {
        return s[0] == DASH;
    }
    if s.len() == 0 {
        return false;
    }
    if s.len() % 2 != 0 {
        return false;
    }
    is_hex(s)
}

// Whether every character is a hexadecimal digit.
fn is_hex(s: &[u8]) -> bool
    ensures { result ≡ is_hex s.now }
{
    for byte in s {
        if 15 < hex_value(*byte) {
            return false;
        }
    }
    true
}

// The value of a hexadecimal digit, 16 of any other character, as the definition has it: an Option would have to be unwrapped for each
// digit of `decode`, whose digits were tested.
fn hex_value(b: u8) -> u8
    ensures { result ≡ hex_value b }
{
    if is_between(48, 57, b as u64) {
        return b - 48;
    }
    if is_between(65, 70, b as u64) {
        return b - 55;
    }
    if is_between(97, 102, b as u64) {
        return b - 87;
    }
    16
}

// Measures the frame whose payload is given by digits.
fn measure_hex(kind: u64, identifier: u64, hex: &[u8]) -> Option<u32>
    requires { Digits hex.now }
    ensures { measured_returns result ≡ frame_returns kind identifier (payload_of hex.now) }
{
    let n = hex.len() / 2;
    if MOST_BYTES < n {
        return None;
    }
    let mut bytes = [0u8; MOST_BYTES];
    decode(hex, &mut bytes);
    frame_length::measure(kind, identifier, &bytes[..n])
}

// Writes the bytes that the digits give.
fn decode(hex: &[u8], bytes: &mut [u8])
    requires digits { Digits hex.now }
    requires hex_in_bounds { length hex.now / 2 ≤ length bytes.old }
    ensures { bytes.new ≡ payload_of hex.now ++ drop (length hex.now / 2) bytes.old }
{
    for i in 0..hex.len() / 2 {
        bytes[i] = 16 * hex_value(hex[2 * i]) + hex_value(hex[2 * i + 1]);
    }
}

// Writes the line for what was measured.
fn write_measured(measured: Option<u32>, out: &mut [u8]) -> Result<usize, table_checks::Refusal>
    ensures value { result ≡ answer_for (Ok tt) (line_of (measured_returns measured)) out.old }
    ensures out_after { out.new ≡ area_after result (line_of (measured_returns measured)) out.old }
{
    match measured {
        Some(n) => write_length(n, out),
        None => write_refusal_line(16, 0, out),
    }
}

// Writes the length (4) and a line feed.
fn write_length(length: u32, out: &mut [u8]) -> Result<usize, table_checks::Refusal>
    ensures value { result ≡ answer_for (Ok tt) (length_line length) out.old }
    ensures out_after { out.new ≡ area_after result (length_line length) out.old }
{
    if out.len() < 5 {
        return no_room();
    }
    decimal::write(&mut out[0..4], length as u64);
    out[4] = LINE_FEED;
    Ok(5)
}
