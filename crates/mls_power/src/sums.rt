//! Power sums in six words of packed storage.

ghost use Rattle.std.specs.Prelude.{◌≡◌, ℕ, ◌+◌, ◌*◌, ◌^◌, ◌<◌, ◌≤◌, ◌↔◌, List, [], ◌∷◌, ◌++◌, length, IsTrue};
ghost use Rattle.mls_power.specs.PowerSums.{HoldsSums, AreInRange};
ghost use Rattle.mls_power.specs.Rules.{AreSums};

/// The number of words that hold the power sums of a list of samples.
pub const POWER_WORDS: usize = 6;

/// The number of two words.
pub(crate) fn wide(low: u64, high: u64) -> u128
    ensures { result ≡ low + 2 ^ 64 * high }
{
    low as u128 + ((high as u128) << 64)
}

// The number of two words, and one more.
fn wide_sum(low: u64, high: u64, more: u64) -> (u64, u64)
    requires { high < 2 ^ 63 }
    ensures { result.0 + 2 ^ 64 * result.1 ≡ low + 2 ^ 64 * high + more }
{
    let (sum, carries) = low.overflowing_add(more);
    if carries {
        (sum, high + 1)
    } else {
        (sum, high)
    }
}

/// The two words of a number, the low one first.
pub(crate) fn halves(n: u128) -> (u64, u64)
    ensures { result.0 + 2 ^ 64 * result.1 ≡ n }
{
    ((n % (1 << 64)) as u64, (n >> 64) as u64)
}

/// Whether these are sums of so many samples' first to fourth powers by the rules that hold of such sums.
pub(crate) fn are_sums(count: u32, p1: u64, p2: u64, p3: u128, p4: u128) -> bool
    requires { count ≤ 131070 }
    ensures { IsTrue result ↔ AreSums count p1 p2 p3 p4 }
{
    p1 <= 65535 * count as u64
        && p2 <= 65535 * p1
        && p1 as u128 * p1 as u128 <= count as u128 * p2 as u128
        && p3 <= 65535 * p2 as u128
        && p4 <= 65535 * p3
}

/// Adds a sample to the sums that the words hold. The words are the first two sums, then the third and the fourth of two words each, the low one first.
pub fn add_sample(words: &mut [u64], x: u16)
    requires size { length words.old ≡ 6 }
    requires room { AreInRange 131069 words.old }
    ensures range { (n : ℕ) → AreInRange n words.old → AreInRange (n + 1) words.new }
    ensures adds { (ws : List ℕ) → HoldsSums words.old ws → HoldsSums words.new (ws ++ x ∷ []) }
{
    let first = x as u64;
    let second = first * first;
    let third = second * first;
    let fourth = second * second;
    let (third_low, third_high) = wide_sum(words[2], words[3], third);
    let (fourth_low, fourth_high) = wide_sum(words[4], words[5], fourth);
    words[0] += first;
    words[1] += second;
    words[2] = third_low;
    words[3] = third_high;
    words[4] = fourth_low;
    words[5] = fourth_high;
}
