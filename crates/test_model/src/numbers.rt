// Pseudo-random numbers, by Lehmer's generators modulo 2^31 - 1, and the identifiers of points.
ghost use Rattle.std.specs.Prelude.{◌<◌};

const MODULUS: u64 = 2147483647;

// The number after `seed`.
pub fn next(seed: u64) -> u64
    ensures { result < 2147483647 }
{
    (seed % MODULUS) * 48271 % MODULUS
}

// The number that a run of its own starts from, after the run from `seed`.
pub fn leap(seed: u64) -> u64
    ensures { result < 2147483647 }
{
    (seed % MODULUS) * 69621 % MODULUS
}

// The identifier of point p: the first 10,007 are distinct, and they are not in the order of p.
pub fn id_of(p: usize) -> u32 {
    let turn = (p % 10007) * 7919 % 10007;
    turn as u32 * 429000 + 1
}
