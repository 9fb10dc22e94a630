// Masks and shifts on words, by the number of bits.
ghost use Rattle.std.specs.Prelude.{◌≡◌, ℕ, ◌+◌, ◌-◌, ◌*◌, ◌%◌, ◌^◌, ◌<◌};

// The lowest n bits, all of them for n of 64 or more.
pub fn low_bits(x: u64, n: u32) -> u64
    ensures value { result ≡ x % 2 ^ n }
{
    if n >= 64 {
        return x;
    }
    x & ((1 << n) - 1)
}

// The n bits of `low` below those of `high`.
pub(crate) fn join(high: u64, n: u32, low: u64) -> u64
    requires width { n < 64 }
    requires high { high < 2 ^ (64 - n) }
    requires low { low < 2 ^ n }
    ensures { result ≡ high * 2 ^ n + low }
{
    high << n | low
}
