// The starts of the groups that bring each to its alignment at one tick, and the instance that is counted from there.
ghost use Rattle.std.specs.Prelude.{◌≡◌, ◌≤◌};
ghost use Rattle.bus_model.specs.Worst.{for_group, meeting_tick, starts_of, instance_from};

use bus_model::Frame;
use workload::GROUPS;

// The tick at which every group stands at its alignment: the greatest of them.
fn meeting_tick(alignments: [u32; 16]) -> u32
    ensures { result ≡ meeting_tick alignments }
{
    let mut most = 0;
    for i in 0..GROUPS {
        most = most.max(alignments[i]);
    }
    most
}

// Each group starts as many ticks before.
pub fn starts_of(alignments: [u32; 16]) -> [u32; 16]
    ensures { result ≡ starts_of alignments }
{
    let meeting = meeting_tick(alignments);
    let mut starts = [0u32; 16];
    for i in 0..GROUPS {
        starts[i] = meeting - alignments[i];
    }
    starts
}

// The alignment of a group.
pub fn alignment_of(alignments: [u32; 16], group: u32) -> u32
    requires { (1 ≤ group) × (group ≤ 16) }
    ensures { result ≡ for_group alignments group }
{
    alignments[group as usize - 1]
}

// Which instance of the frame is number q, from 1, of those released when its group stands at the alignment or later.
pub fn instance_from(frame: Frame, alignment: u32, q: u32) -> u32
    requires { (1 ≤ frame.period) × (frame.period ≤ 1000000) × (alignment ≤ 1000000) × (1 ≤ q) × (q ≤ 1000000) }
    ensures { result ≡ instance_from frame alignment q }
{
    if alignment <= frame.offset {
        return q - 1;
    }
    (alignment - frame.offset + (frame.period - 1)) / frame.period + (q - 1)
}
