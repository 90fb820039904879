// Arithmetic that the other crates share: the answer of a search, one of two numbers, their product, the greatest common divisor and the
// least common multiple. The definitions and their laws are in specs/.
#![tactic(auto)]

ghost use Rattle.std.specs.Prelude.{◌≡◌, cond, ◌*◌, ◌≤◌, ◌<◌, ◌^◌, min, max};
ghost use Rattle.arith.specs.Least.{or_zero};
ghost use Rattle.arith.specs.Multiples.{gcd, lcm};

// a where the test holds, and b elsewhere.
pub fn choose(test: bool, a: u32, b: u32) -> u32
    ensures { result ≡ cond test a b }
{
    if test { a } else { b }
}

// The product, which always fits.
pub fn product(a: u32, b: u32) -> u64
    ensures value { result ≡ a * b }
    ensures small { result ≤ 4294967295 * 4294967295 }
{
    a as u64 * b as u64
}

// The greatest common divisor, by Euclid's algorithm.
pub fn gcd(a: u64, b: u64) -> u64
    ensures { result ≡ gcd a b }
{
    let mut x = a;
    let mut y = b;
    // No range: how often it divides is not known before.
    while 0 < y {
        let rest = x % y;
        x = y;
        y = rest;
    }
    x
}

// The least common multiple.
pub fn lcm(a: u64, b: u64) -> u64
    requires { (a < 2 ^ 32) × (0 < b) × (b < 2 ^ 32) }
    ensures { result ≡ lcm a b }
{
    let g = gcd(a, b);
    a * (b / g)
}
