//! Bytes in memory.

ghost use Rattle.std.specs.Prelude.{◌≡◌, ◌+◌, ◌-◌, ◌*◌, ◌<◌, ◌≤◌, ◌^◌, ◌++◌, length, replicate, take, drop, slice_set, ℕ};
ghost use Rattle.um_machine.specs.Memory.{le_value, le_bytes, put_bytes};

/// The number of a few bytes, the lowest first.
#[tactic(auto, using(crate::proofs::ByteLemmas::few_bytes))]
pub fn le_value(bytes: &[u8]) -> u32
    requires { length bytes.now ≤ 4 }
    ensures value { result ≡ le_value bytes.now }
    ensures bound { result < 256 ^ length bytes.now }
{
    match bytes {
        [] => 0,
        [b, rest @ ..] => *b as u32 + 256 * le_value(rest),
    }
}

/// Writes a byte, if there is memory.
pub fn put(memory: &mut [u8], i: usize, b: u8)
    ensures { memory.new ≡ slice_set memory.old i b }
{
    if i < memory.len() {
        memory[i] = b;
    }
}

/// Writes bytes one after another, as far as there is memory.
pub fn write(memory: &mut [u8], i: usize, bytes: &[u8])
    requires { i + length bytes.now < 2 ^ 64 }
    ensures { memory.new ≡ put_bytes memory.old i bytes.now }
{
    for (k, b) in bytes.iter().enumerate() {
        put(memory, i + k, *b);
    }
}

/// Writes this many zero bytes one after another, as far as there is memory.
#[tactic(auto, using(crate::proofs::ByteLemmas::zeros_more))]
pub fn clear(memory: &mut [u8], i: usize, n: usize)
    requires { i + n < 2 ^ 64 }
    ensures { memory.new ≡ put_bytes memory.old i (replicate {A = ℕ} n 0) }
{
    for k in 0..n {
        put(memory, i + k, 0);
    }
}

/// At most n bytes from i on.
pub fn part(memory: &[u8], i: usize, n: usize) -> &[u8]
    ensures value { result.now ≡ take n (drop i memory.now) }
    ensures short { length result.now ≤ n }
{
    if i >= memory.len() {
        return &[];
    }
    let rest = &memory[i..];
    if n >= rest.len() { rest } else { &rest[..n] }
}
