// The greatest common divisor and the least common multiple of two numbers.
#![tactic(auto)]

ghost use Rattle.std.specs.Prelude.{◌≡◌};
ghost use Rattle.divisor.specs.Divisors.{gcd, lcm, within};

// Each division leaves a smaller remainder.
pub fn gcd(a: usize, b: usize) -> usize
    ensures { result ≡ gcd a b }
{
    if b == 0 { a } else { gcd(b, a % b) }
}

// The least common multiple, where it is at most `most`. The limit is divided, so that no product wraps.
pub fn lcm(a: usize, b: usize, most: usize) -> Option<usize>
    ensures { result ≡ within most (lcm a b) }
{
    if b == 0 {
        return Some(0);
    }
    let times = a / gcd(a, b);
    if most / b < times {
        return None;
    }
    Some(times * b)
}
