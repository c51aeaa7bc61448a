//! How long the reads of a connection wait for bytes.

ghost use Rattle.std.specs.Prelude.{◌≡◌, ◌-◌, ◌<◌, ◌≤◌, None, Some};

use std::time::Duration;

/// How many bytes a group's first frame has.
const FIRST_FRAME: usize = 19;

/// How long a connection's reads wait for bytes: up to its first frame, and after it.
#[derive(Clone, Copy, Debug)]
pub struct Waits {
    /// What the next read has to set first, where it isn't set yet.
    pub next: Option<Duration>,
    /// What is to be set once the first frame may have come.
    pub later: Option<Duration>,
    /// How many bytes of the first frame haven't come yet.
    pub awaited: usize,
}

impl Waits {
    /// Reads wait until bytes come.
    pub fn endless() -> Waits
        ensures next { result.next ≡ None }
        ensures later { result.later ≡ None }
    {
        Waits {
            next: None,
            later: None,
            awaited: 0,
        }
    }

    /// Reads wait no longer than `first` while less than a first frame has come, and no longer than `silence` after it.
    pub fn bounded(first: Duration, silence: Duration) -> Waits
        ensures next { result.next ≡ Some first }
        ensures later { result.later ≡ Some silence }
        ensures awaited { result.awaited ≡ 19 }
    {
        Waits {
            next: Some(first),
            later: Some(silence),
            awaited: FIRST_FRAME,
        }
    }

    /// So many more bytes came.
    pub fn hear(&mut self, n: usize)
        ensures awaited { self.new.awaited ≡ self.old.awaited - n }
        ensures early { n < self.old.awaited → self.new.next ≡ self.old.next }
        ensures kept { n < self.old.awaited → self.new.later ≡ self.old.later }
        ensures turns { self.old.awaited ≤ n → self.old.later ≡ None → self.new.next ≡ self.old.next }
        ensures whole { self.old.awaited ≤ n → self.new.later ≡ None }
        ensures later { (wait : Duration) → self.old.awaited ≤ n → self.old.later ≡ Some wait → self.new.next ≡ Some wait }
    {
        self.awaited = self.awaited.saturating_sub(n);
        if self.awaited > 0 {
            return;
        }
        if let Some(wait) = self.later {
            self.next = Some(wait);
            self.later = None;
        }
    }
}
