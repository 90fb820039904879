// The faults of a premise: what one costs at most, and how many a search counts.
ghost use Rattle.std.specs.Prelude.{◌≡◌, ◌-◌, ◌*◌, ◌≤◌};
ghost use Rattle.arith.specs.Releases.{releases_before};
ghost use Rattle.workload.specs.Prepared.{table_of, Filled};
ghost use Rattle.workload.specs.Faults.{cost_of, FineTarget, faults_in, lead_of};

use crate::blocking::longest;
use crate::work::releases_before;
use crate::{Search, Target};
use arith::product;
use bus_model::{Faults, Frame};

// So many ticks of signalling follow a fault's tick.
const SIGNALLING: u32 = 31;

// What a fault costs at most: the longest transmission it may cut, and the signalling. Where none ever begins, nothing.
pub fn fault_time(rows: &[u32], prepared: &[u32], faults: Faults, k: Frame) -> u32
    requires { Filled rows.now prepared.now }
    ensures { result ≡ cost_of faults (table_of rows.now prepared.now) k }
{
    match faults {
        Faults::Never => 0,
        Faults::Apart(_) => SIGNALLING + longest(rows, prepared, k, false),
    }
}

// What the faults that begin in n ticks cost at most.
pub fn fault_cost(target: Target, n: u32) -> u64
    requires fine_target { FineTarget target }
    requires n_bound { n ≤ 1000400 }
    ensures value { result ≡ faults_in target.faults n * target.cost }
    ensures small { result ≤ 431172400 }
{
    match target.faults {
        Faults::Never => 0,
        Faults::Apart(gap) => product(releases_before(0, gap, n, 0), target.cost),
    }
}

// How many ticks more a search counts faults for than releases: a start's faults may begin until the frame is sent.
pub fn lead_of(search: Search, k: Frame) -> u32
    requires { (1 ≤ k.length) × (k.length ≤ 400) }
    ensures value { result ≡ lead_of search k }
    ensures small { result ≤ 399 }
{
    match search {
        Search::Window => 0,
        Search::Instance(_) => k.length - 1,
    }
}

// How long after a lead the first fault that is not in it begins.
pub fn first_fault(gap: u32, lead: u32) -> u32
    requires { (1 ≤ gap) × (gap ≤ 1000000) × (lead ≤ 399) }
    ensures { result ≡ releases_before 0 gap lead * gap - lead }
{
    releases_before(0, gap, lead, 0) * gap - lead
}
