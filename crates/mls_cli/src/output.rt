//! An output that is written in large pieces.

ghost use Rattle.std.specs.Prelude.{◌≡◌, Some, IfOk, IfSome, OnOk, OnErr};
ghost use Rattle.std.specs.Io.Buffered.{writer_inner};
ghost use Rattle.mls_base.specs.Told.{Rose};
ghost use Rattle.mls_cli.specs.Output.{told_of};

use mls_base::faults::{Failed, NoMemory};
use mls_base::outside::Sink;
use std::alloc::Global;
use std::io::{BufWriter, Print, Printer, Write};

/// How many bytes are gathered before they are written out.
const GATHERED: usize = 65_536;

/// A writer that tells what it holds always or never.
pub trait SteadyWriter: Write {
    ghost use Rattle.std.specs.Prelude.{◌≡◌, is_some};

    /// What one value tells, each tells.
    ghost steady: { (v w : Self) → is_some (Self.contents v) ≡ is_some (Self.contents w) };
}

impl SteadyWriter for Vec<u8> {
    ghost use Rattle.std.specs.Prelude.{refl};

    ghost steady = { λ v w. refl };
}

impl<P: Print> SteadyWriter for Printer<'_, P> {
    ghost use Rattle.std.specs.Prelude.{refl};

    ghost steady = { λ v w. refl };
}

/// A sink over a writer that gathers what is written and hands it on in large pieces. Until a write fails it tells what
/// the writer holds and what is gathered, where the writer tells that.
#[derive(Drop)]
pub struct BufferedSink<W: SteadyWriter + Drop> {
    out: BufWriter<W>,
    faults: u64,
}

impl<W: SteadyWriter + Drop> BufferedSink<W> {
    /// Nothing is gathered and no write failed so far.
    pub fn new(alloc: Global, out: W) -> Result<BufferedSink<W>, NoMemory>
        ensures told { IfOk result (λ s. ⟦<BufferedSink<W> as Sink>⟧.told s ≡ W.contents out) }
        ensures faults { IfOk result (λ s. ⟦<BufferedSink<W> as Sink>⟧.faults s ≡ 0) }
    {
        match BufWriter::with_capacity(alloc, GATHERED, out) {
            Ok(out) => Ok(BufferedSink { out, faults: 0 }),
            Err(_) => Err(NoMemory),
        }
    }

    /// Writes out what is still gathered. After `Ok` the writer holds all that was told.
    pub fn finish(&mut self) -> Result<(), Failed>
        ensures handed_on { let told = ⟦<BufferedSink<W> as Sink>⟧.told self.old in
            OnOk result (IfSome told (λ bytes. W.contents (writer_inner self.new.out) ≡ Some bytes)) }
        ensures faultless { let faults = ⟦<BufferedSink<W> as Sink>⟧.faults in
            OnOk result (faults self.new ≡ faults self.old) }
        ensures rose { let faults = ⟦<BufferedSink<W> as Sink>⟧.faults in
            OnErr result (Rose (faults self.old) (faults self.new)) }
    {
        match self.out.flush() {
            Ok(()) => Ok(()),
            Err(_) => {
                self.faults = self.faults.saturating_add(1);
                Err(Failed)
            }
        }
    }

    /// The writer that what was gathered goes to.
    pub fn writer(&self) -> &W
        ensures { result.now ≡ writer_inner self.now.out }
    {
        self.out.get_ref()
    }
}

impl<W: SteadyWriter + Drop> Sink for BufferedSink<W> {
    ghost faults = { λ s. s.faults };

    ghost told = { λ s. told_of W.contents s.out s.faults };

    ghost sure = { λ s. 0 };

    fn write(&mut self, piece: &[u8]) -> Result<usize, Failed> {
        match self.out.write_all(piece) {
            Ok(()) => Ok(piece.len()),
            Err(_) => {
                self.faults = self.faults.saturating_add(1);
                Err(Failed)
            }
        }
    }
}
