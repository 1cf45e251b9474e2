// Bytes that are read from the front, and a named file that may take their place.
ghost use Rattle.std.specs.Prelude.{◌≡◌, ◌≤◌, ◌++◌, length, min, take, None, Some, string_bytes};
ghost use Rattle.mm_io.specs.Reel.{is_name_of, playing};
ghost use Rattle.mm_io.specs.Told.{file_bytes};

#[derive(Drop)]
pub(crate) struct StoredFile {
    name: String,
    bytes: Vec<u8>,
}

/// The file stays as it is when it is read, so it can be chosen again.
#[derive(Drop)]
pub(crate) struct Tape {
    own: Vec<u8>,
    file: Option<StoredFile>,
    chosen: bool,
    at: usize,
    piece: usize,
    ghost on_the_tape: { at ≤ length (playing file chosen own.items) },
    ghost moves: { 1 ≤ piece },
}

// Where the file is chosen, it's what the tape goes on with.
fn into_playing(own: Vec<u8>, file: Option<StoredFile>, chosen: bool) -> Vec<u8>
    ensures { result.items ≡ playing file chosen own.items }
{
    match file {
        Some(file) if chosen => file.bytes,
        _ => own,
    }
}

impl Tape {
    ghost use Rattle.mm_io.specs.Tape.{rest_of, file_of};

    pub(crate) fn make(own: Vec<u8>, piece: usize) -> Tape
        requires { 1 ≤ piece }
        ensures rest { rest_of result ≡ own.items }
        ensures file { file_of result ≡ None }
        ensures piece { result.piece ≡ piece }
    {
        Tape {
            own,
            file: None,
            chosen: false,
            at: 0,
            piece,
        }
    }

    pub(crate) fn with_file(self, name: String, bytes: Vec<u8>) -> Tape
        ensures rest { rest_of result ≡ rest_of self }
        ensures file { file_of result ≡ Some (record { name = string_bytes name; bytes = bytes.items }) }
        ensures piece { result.piece ≡ self.piece }
    {
        let Tape {
            own,
            file,
            chosen,
            at,
            piece,
        } = self;
        Tape {
            own: into_playing(own, file, chosen),
            file: Some(StoredFile { name, bytes }),
            chosen: false,
            at,
            piece,
        }
    }

    /// Turns to the file if it has this name, and to no bytes otherwise.
    pub(crate) fn choose(&mut self, name: &str)
        ensures rest { rest_of self.new ≡ file_bytes (file_of self.old) name.now }
        ensures file { file_of self.new ≡ file_of self.old }
        ensures piece { self.new.piece ≡ self.old.piece }
    {
        if self.has_file(name) {
            self.chosen = true;
            self.at = 0;
        } else {
            self.chosen = false;
            self.at = self.own.len();
        }
    }

    fn has_file(&self, name: &str) -> bool
        ensures { result ≡ is_name_of (file_of self.now) name.now }
    {
        match &self.file {
            Some(file) => file.name.as_str() == name,
            None => false,
        }
    }

    /// Puts the next bytes into `buf`: as many as a piece has, as there is room for and as are left.
    pub(crate) fn read(&mut self, buf: &mut [u8]) -> usize
        ensures count { result ≡ min (min self.old.piece (length buf.old)) (length (rest_of self.old)) }
        ensures given { rest_of self.old ≡ take result buf.new ++ rest_of self.new }
        ensures file { file_of self.new ≡ file_of self.old }
        ensures piece { self.new.piece ≡ self.old.piece }
    {
        let rest = self.rest();
        let n = self.piece.min(buf.len()).min(rest.len());
        buf[..n].copy_from_slice(&rest[..n]);
        self.at += n;
        n
    }

    fn rest(&self) -> &[u8]
        ensures { result.now ≡ rest_of self.now }
    {
        match &self.file {
            Some(file) if self.chosen => &file.bytes[self.at..],
            _ => &self.own[self.at..],
        }
    }
}
