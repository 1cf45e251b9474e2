// Readers, writers and files of the host, of which contracts know whether they tell their bytes.
ghost use Rattle.std.specs.Prelude.{◌≡◌, None, Option, IfOk, IfSome, refl};
ghost use Rattle.mm_io.specs.Told.{NamedFile, file_bytes};

use std::fs::File;
use std::io;
use std::io::{Read, Stderr, Stdin, Stdout, Write};

/// A reader of a type whose values all tell which bytes they have left, or none does.
pub trait SteadyRead: Read {
    ghost steady: { (r s : Self) → Self.remaining r ≡ None → Self.remaining s ≡ None };
}

/// A writer of a type whose values all tell which bytes they hold, or none does.
pub trait SteadyWrite: Write {
    ghost steady: { (w v : Self) → Self.contents w ≡ None → Self.contents v ≡ None };
}

/// Files that are opened by their names.
pub trait NamedFiles {
    type File: SteadyRead + Drop;

    /// The one file that is told, if one is. Under each other name a file that is told has no bytes.
    ghost named: { Self → Option NamedFile };

    fn open(&self, name: &str) -> io::Result<Self::File>
        ensures { IfOk result (λ file. IfSome (Self.File.remaining file)
            (λ bytes. bytes ≡ file_bytes (named self.now) name.now)) };
}

impl SteadyRead for Stdin {
    ghost steady = { λ _ _ _. refl };
}

impl SteadyRead for File {
    ghost steady = { λ _ _ _. refl };
}

impl SteadyWrite for Stdout {
    ghost steady = { λ _ _ _. refl };
}

impl SteadyWrite for Stderr {
    ghost steady = { λ _ _ _. refl };
}

impl NamedFiles for HostRuntime {
    type File = File;

    ghost named = { λ _. None };

    fn open(&self, name: &str) -> io::Result<File> {
        File::open(self, name)
    }
}
