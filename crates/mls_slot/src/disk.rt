//! A disk of two areas, as a keeper sees it.
//!
//! Between two syncs of an area each written range, and the part past the old end, may hold any bytes after a
//! crash, and the end may stand anywhere from the old to the new one. After a sync that succeeds the area's one
//! image is what a read gives. A disk may tell what a read gives and what a crash may leave. It tells after a call
//! exactly where it told before, but that after `Failed` it may cease to tell.

ghost use Rattle.std.specs.Prelude.{◌≡◌, ℕ, ◌<◌, ◌≤◌, List, length, Bool, IsTrue, IfOk, OnOk, OnErr};
ghost use Rattle.mls_base.specs.Told.{Rose};
ghost use Rattle.mls_slot.specs.Disks.{Areas, View, IsLeft, Untouched, Wrote, WroteBadly, Synced, SyncedBadly, Gave};

use mls_base::faults::Failed;

/// Two areas of bytes, 0 and 1.
pub trait Disk {
    /// How many calls failed.
    ghost faults: { Self → ℕ };

    /// Whether the disk tells what it holds.
    ghost tells: { Self → Bool };

    /// What a read gives and what a crash may leave, where the disk tells it.
    ghost view: { Self → View };

    /// The length of an area in bytes.
    fn len(&mut self, area: u32) -> Result<u64, Failed>
        requires { area < 2 }
        ensures length { IfOk result (λ n. IsTrue (tells self.old) → n ≡ length ((view self.old).seen area)) }
        ensures same { IsTrue (tells self.new) → Untouched (view self.old) (view self.new) }
        ensures tells { OnOk result (tells self.new ≡ tells self.old) }
        ensures ceased { OnErr result (IsTrue (tells self.new) → IsTrue (tells self.old)) }
        ensures faultless { OnOk result (faults self.new ≡ faults self.old) }
        ensures rose { OnErr result (Rose (faults self.old) (faults self.new)) };

    /// Puts the area's bytes from `at` on at the front of `into`, fewer than fit only at the area's end, and gives
    /// their number.
    fn read(&mut self, area: u32, at: u64, into: &mut [u8]) -> Result<usize, Failed>
        requires { area < 2 }
        ensures within { IfOk result (λ n. n ≤ length into.old) }
        ensures bytes { IfOk result (λ n. IsTrue (tells self.old) → Gave ((view self.old).seen area) at into.old into.new n) }
        ensures same { IsTrue (tells self.new) → Untouched (view self.old) (view self.new) }
        ensures tells { OnOk result (tells self.new ≡ tells self.old) }
        ensures ceased { OnErr result (IsTrue (tells self.new) → IsTrue (tells self.old)) }
        ensures faultless { OnOk result (faults self.new ≡ faults self.old) }
        ensures rose { OnErr result (Rose (faults self.old) (faults self.new)) };

    /// Writes over what is there, and past the end. `at` is at most the area's length. What a failed write leaves is
    /// as after a write with no sync.
    fn write_at(&mut self, area: u32, at: u64, bytes: &[u8]) -> Result<(), Failed>
        requires area { area < 2 }
        requires at { IsTrue (tells self.old) → at ≤ length ((view self.old).seen area) }
        ensures wrote { OnOk result (IsTrue (tells self.old) → Wrote area at bytes.now (view self.old) (view self.new)) }
        ensures badly { OnErr result (IsTrue (tells self.new) → WroteBadly area at (length bytes.now) (view self.old) (view self.new)) }
        ensures tells { OnOk result (tells self.new ≡ tells self.old) }
        ensures ceased { OnErr result (IsTrue (tells self.new) → IsTrue (tells self.old)) }
        ensures faultless { OnOk result (faults self.new ≡ faults self.old) }
        ensures rose { OnErr result (Rose (faults self.old) (faults self.new)) };

    /// Where it succeeds, a crash leaves of the area what a read gives. What a failed sync leaves is as before.
    fn sync(&mut self, area: u32) -> Result<(), Failed>
        requires { area < 2 }
        ensures synced { OnOk result (IsTrue (tells self.old) → Synced area (view self.old) (view self.new)) }
        ensures badly { OnErr result (IsTrue (tells self.new) → SyncedBadly area (view self.old) (view self.new)) }
        ensures tells { OnOk result (tells self.new ≡ tells self.old) }
        ensures ceased { OnErr result (IsTrue (tells self.new) → IsTrue (tells self.old)) }
        ensures faultless { OnOk result (faults self.new ≡ faults self.old) }
        ensures rose { OnErr result (Rose (faults self.old) (faults self.new)) };

    /// This moment is one of those since an earlier one.
    ghost counts_now: { (disk : Self) (t : ℕ) (image : Areas) → IsTrue (tells disk) → t ≤ (view disk).moment → IsLeft (view disk) image → (view disk).left_since t image };

    /// Since this moment there is no other.
    ghost only_now: { (disk : Self) (image : Areas) → IsTrue (tells disk) → (view disk).left_since ((view disk).moment) image → IsLeft (view disk) image };

    /// What a read gives is among what a crash may leave.
    ghost seen_left: { (disk : Self) → IsTrue (tells disk) → IsLeft (view disk) ((view disk).seen) };
}
