//! What the head of an area tells of it.

ghost use Rattle.std.specs.Prelude.{◌≡◌, ◌≢◌, ℕ, ◌+◌, ◌<◌, ◌≤◌, List, take, length, min, Bool, ◌∷◌, None, IfSome};
ghost use Rattle.std.specs.Int.{w64, to_be_bytes};
ghost use Rattle.mls_slot.specs.Disks.{Areas};
ghost use Rattle.mls_slot.specs.Runs.{SameBut};
ghost use Rattle.mls_slot.specs.Slots.{head_length, next, value};
ghost use Rattle.mls_slot.specs.Known.{is_shut, slot_of, IsHead, AreHeads, IsTarget};

/// The bytes of a slot before its payload: a gate byte, a number byte and the payload's length in eight bytes.
pub const HEAD_LENGTH: usize = 10;

/// A whole slot: its number and the length of its payload in bytes.
#[derive(Clone, Copy, Debug, PartialEq, Eq)]
pub struct Slot {
    pub number: u8,
    pub length: u64,
}

/// What is known of an area.
#[derive(Clone, Copy, Debug, PartialEq, Eq)]
pub struct Head {
    /// There is a gate, and it isn't 1.
    pub shut: bool,
    /// The slot, where the area is a whole one.
    pub slot: Option<Slot>,
}

/// What is known of both areas.
#[derive(Clone, Copy, Debug, PartialEq, Eq)]
pub struct Heads {
    pub zero: Head,
    pub one: Head,
}

impl Heads {
    /// What is known of an area.
    pub fn head(&self, area: u32) -> Head
        requires { area < 2 }
        ensures { (areas : Areas) → AreHeads areas self.now → IsHead (areas area) result }
    {
        if area == 0 { self.zero } else { self.one }
    }

    /// With another head for an area.
    pub fn with(self, area: u32, head: Head) -> Heads
        requires { area < 2 }
        ensures { (areas news : Areas) → AreHeads areas self → IsHead (news area) head → SameBut area areas news → AreHeads news result }
    {
        if area == 0 {
            return Heads {
                zero: head,
                one: self.one,
            };
        }
        Heads {
            zero: self.zero,
            one: head,
        }
    }

    /// The area that the next put goes to, which isn't the current one, and its number.
    pub fn target(&self) -> (u32, u8)
        ensures within { result.0 < 2 }
        ensures first { (areas : Areas) → AreHeads areas self.now → value areas ≡ None → result.0 ≡ 0 }
        ensures target { (areas : Areas) → AreHeads areas self.now → IsTarget areas result.0 result.1 }
    {
        match (self.zero.slot, self.one.slot) {
            (None, None) => (0, 0),
            (Some(zero), None) => (1, following(zero.number)),
            (None, Some(one)) => (0, following(one.number)),
            (Some(zero), Some(one)) => later_target(zero.number, one.number),
        }
    }
}

/// The number after this one, modulo 3.
fn following(number: u8) -> u8
    ensures { number ≤ 2 → result ≡ next number }
{
    match number {
        0 => 1,
        1 => 2,
        _ => 0,
    }
}

/// The target where both areas are whole: the one that isn't the newer.
fn later_target(zero: u8, one: u8) -> (u32, u8)
    ensures within { result.0 < 2 }
    ensures one { zero ≤ 2 → one ≤ 2 → zero ≡ next one → result ≡ (1, next zero) }
    ensures zero { zero ≤ 2 → one ≤ 2 → one ≡ next zero → result ≡ (0, next one) }
    ensures same { zero ≤ 2 → one ≤ 2 → zero ≢ next one → one ≢ next zero → result ≡ (1, next zero) }
{
    if zero != following(one) && one == following(zero) {
        return (0, following(one));
    }
    (1, following(zero))
}

/// What an area's length and its first bytes, at most a head's, tell.
pub fn head_of(len: u64, front: &[u8]) -> Head
    ensures { (bytes : List ℕ) → length bytes ≡ len → front.now ≡ take head_length bytes → IsHead bytes result }
{
    Head {
        shut: has_shut_gate(front),
        slot: whole_slot(len, front),
    }
}

fn has_shut_gate(front: &[u8]) -> bool
    ensures { (bytes : List ℕ) → front.now ≡ take head_length bytes → result ≡ is_shut bytes }
{
    match front {
        [gate, ..] => *gate != 1,
        [] => false,
    }
}

fn whole_slot(len: u64, front: &[u8]) -> Option<Slot>
    ensures { (bytes : List ℕ) → length bytes ≡ len → front.now ≡ take head_length bytes → result ≡ slot_of bytes }
{
    let [1, number @ 0..=2, a, b, c, d, e, f, g, h] = front else {
        return None;
    };
    let length = u64::from_be_bytes([*a, *b, *c, *d, *e, *f, *g, *h]);
    let head = HEAD_LENGTH as u64;
    if len < head || len - head < length {
        return None;
    }
    Some(Slot {
        number: *number,
        length,
    })
}
