// The entry for C that gives a frame's exact length.
ghost use Rattle.std.specs.Prelude.{◌≡◌};
ghost use Rattle.frame_length.specs.FrameLength.{frame_returns};
ghost use Rattle.certifier.specs.FrameEntry.{encode_frame};

// The length of the data frame in ticks, or minus (number × 10000 + place).
pub fn certifier_frame_length(kind: u32, identifier: u32, payload: &[u8]) -> i64
    ensures { result ≡ encode_frame (frame_returns kind identifier payload.now) }
{
    match frame_length::measure(u64::from(kind), u64::from(identifier), payload) {
        Some(n) => i64::from(n),
        // For C: minus (number × 10000 + place).
        None => -160_000,
    }
}
