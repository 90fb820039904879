// The exact length of a data frame on the wire: its bits are sent one by one, with their stuff bits and CRC.
#![tactic(auto)]

ghost use Rattle.std.specs.Prelude.{◌≡◌, ◌+◌, ◌*◌, ◌≤◌, ◌<◌, length};
ghost use Rattle.frame_length.specs.DataFrame.{bit, bits, arbitration, control, data_field, before_crc};
ghost use Rattle.frame_length.specs.Crc.{crc_step};
ghost use Rattle.frame_length.specs.Stuffing.{run_with};
ghost use Rattle.frame_length.specs.FrameLength.{frame_returns, measured_returns};
ghost use Rattle.frame_length.specs.Steps.{send_bit, send_all, nothing_sent, Within};

// The levels of a bit.
const DOMINANT: bool = false;

const RECESSIVE: bool = true;

// The CRC's polynomial without its top bit.
const POLYNOMIAL: u64 = 0x4599;

// The bits after the CRC, and the space between frames.
const AFTER_CRC: u32 = 13;

const MOST_BYTES: usize = 8;

// The bits sent so far: the last one, how many equal ones end with it, how many they are, and their CRC.
#[derive(Clone, Copy)]
pub struct Sent {
    pub last: bool,
    pub run: u32,
    pub length: u32,
    pub crc: u64,
}

// Measures a data frame: nothing where its kind, identifier or number of payload bytes is outside its limits.
pub fn measure(kind: u64, identifier: u64, payload: &[u8]) -> Option<u32>
    ensures { measured_returns result ≡ frame_returns kind identifier payload.now }
{
    if MOST_BYTES < payload.len() || !table_checks::is_identifier(kind, identifier) {
        return None;
    }
    let before = send_before_crc(kind, identifier, payload);
    let whole = send_bits(before, 15, before.crc);
    Some(whole.length + AFTER_CRC)
}

// Sends a frame's bits up to its CRC.
fn send_before_crc(kind: u64, identifier: u64, payload: &[u8]) -> Sent
    requires { length payload.now ≤ 8 }
    ensures value { result ≡ send_all nothing_sent (before_crc kind identifier payload.now) }
    ensures within { Within 206 result }
{
    let nothing = Sent {
        last: DOMINANT,
        run: 0,
        length: 0,
        crc: 0,
    };
    let started = send_bit(nothing, DOMINANT);
    let arbitrated = send_arbitration(started, kind, identifier);
    let controlled = send_control(arbitrated, payload.len() as u64);
    send_data(controlled, payload)
}

// Sends the arbitration field.
fn send_arbitration(s: Sent, kind: u64, identifier: u64) -> Sent
    requires { Within 2 s }
    ensures value { result ≡ send_all s (arbitration kind identifier) }
    ensures within { Within 66 result }
{
    // Kinds are numbers, since rows in memory hold them so, for C.
    if kind == 11 {
        let named = send_bits(s, 11, identifier);
        // RTR
        return send_bit(named, DOMINANT);
    }
    let base = send_bits(s, 11, identifier >> 18);
    let srr = send_bit(base, RECESSIVE);
    let ide = send_bit(srr, RECESSIVE);
    let named = send_bits(ide, 18, identifier);
    // RTR
    send_bit(named, DOMINANT)
}

// Sends the control field.
fn send_control(s: Sent, size: u64) -> Sent
    requires { Within 66 s }
    ensures value { result ≡ send_all s (control size) }
    ensures within { Within 78 result }
{
    // IDE or r1, and r0
    let first = send_bit(s, DOMINANT);
    let second = send_bit(first, DOMINANT);
    send_bits(second, 4, size)
}

// Sends the data field.
fn send_data(start: Sent, payload: &[u8]) -> Sent
    requires { Within 78 start × (length payload.now ≤ 8) }
    ensures value { result ≡ send_all start (data_field payload.now) }
    ensures within { Within 206 result }
{
    let mut s = start;
    for byte in payload {
        s = send_bits(s, 8, u64::from(*byte));
    }
    s
}

// Sends the low w bits of n, the top one first.
fn send_bits(start: Sent, w: u32, n: u64) -> Sent
    requires { Within 206 start × (w ≤ 32) }
    ensures value { result ≡ send_all start (bits w n) }
    ensures within { Within (start.length + 2 * w) result }
{
    let mut s = start;
    for j in (0..w).rev() {
        s = send_bit(s, bit_of(n, j));
    }
    s
}

// Sends a bit, and a stuff bit after it where it is the fifth of its run.
fn send_bit(s: Sent, b: bool) -> Sent
    requires { Within 270 s }
    ensures value { result ≡ send_bit s b }
    ensures within { Within (s.length + 2) result }
{
    let run = run_with(s.last, s.run, b);
    let crc = crc_step(s.crc, b);
    if run == 5 {
        Sent {
            last: !b,
            run: 1,
            length: s.length + 2,
            crc,
        }
    } else {
        Sent {
            last: b,
            run,
            length: s.length + 1,
            crc,
        }
    }
}

// How many equal bits end with b.
fn run_with(last: bool, run: u32, b: bool) -> u32
    requires { run ≤ 4 }
    ensures value { result ≡ run_with last run b }
    ensures upper_bound { result ≤ 5 }
{
    if b == last { run + 1 } else { 1 }
}

// The CRC with one bit more.
fn crc_step(crc: u64, next: bool) -> u64
    ensures { result ≡ crc_step crc next }
{
    let shifted = crc % 16_384 * 2;
    if next != bit_of(crc, 14) {
        shifted ^ POLYNOMIAL
    } else {
        shifted
    }
}

// The bit of n that counts 2^j.
fn bit_of(n: u64, j: u32) -> bool
    requires { j < 32 }
    ensures { result ≡ bit n j }
{
    (n >> j) % 2 == 1
}
