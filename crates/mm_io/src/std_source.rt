// A reader of the host, or the file that was chosen last.
ghost use Rattle.std.specs.Prelude.{◌≡◌, option_map};
ghost use Rattle.mm_io.specs.Streams.{told_left};

use crate::host::{opened, read_once};
use crate::host_streams::{NamedFiles, SteadyRead};
use crate::{ChooseFault, Failed, Source};

/// Reads a reader of the host, or the file that was chosen last.
///
/// It tells what that reader has left, where both the reader and the files tell it: standard input and the files of
/// the host don't. Each error is counted, in a u64 that stays at its last value. Want of memory in `choose` is no
/// error.
#[derive(Drop)]
pub struct StdSource<R: SteadyRead + Drop, F: NamedFiles + Drop> {
    own: R,
    files: F,
    file: Option<F::File>,
    faults: u64,
}

impl<R: SteadyRead + Drop, F: NamedFiles + Drop> StdSource<R, F> {
    /// Starts at this reader. Files are opened by `files`.
    pub fn make(own: R, files: F) -> StdSource<R, F>
        ensures left { ⟦<StdSource<R, F> as Source>⟧.left result ≡ R.remaining own }
        ensures named { ⟦<StdSource<R, F> as Source>⟧.named result ≡ F.named files }
        ensures faults { ⟦<StdSource<R, F> as Source>⟧.faults result ≡ 0 }
    {
        StdSource {
            own,
            files,
            file: None,
            faults: 0,
        }
    }
}

impl<R: SteadyRead + Drop, F: NamedFiles + Drop> Source for StdSource<R, F> {
    ghost faults = { λ source. source.faults };

    ghost left = { λ source. told_left (R.remaining source.own)
        (option_map (λ file. F.File.remaining file) source.file) };

    ghost named = { λ source. F.named source.files };

    fn choose(&mut self, name: &str) -> Result<(), ChooseFault> {
        self.file = Some(opened(self.files.open(name), &mut self.faults)?);
        Ok(())
    }

    fn read(&mut self, buf: &mut [u8]) -> Result<usize, Failed> {
        match &mut self.file {
            Some(file) => read_once(file, buf, &mut self.faults),
            None => read_once(&mut self.own, buf, &mut self.faults),
        }
    }
}
