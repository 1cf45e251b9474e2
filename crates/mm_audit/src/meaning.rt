// Words that mean counted objects.
ghost use Rattle.std.specs.Prelude.{◌≡◌};
ghost use Rattle.mm_model.specs.Views.ViewWords.{begins_counted_in, falls_in_counted_of};

use crate::objects::Objects;

impl Objects {
    /// Whether a counted object begins at a word.
    pub fn begins_counted(&self, word: u32) -> bool
        ensures { result ≡ begins_counted_in self.now word }
    {
        match self.get(word) {
            None => false,
            Some(header) => header.kind.is_counted(),
        }
    }

    /// Whether a word falls in a counted object.
    pub fn falls_in_counted(&self, word: u32) -> bool
        ensures { result ≡ falls_in_counted_of self.now word }
    {
        match self.find(word) {
            None => false,
            Some(found) => found.header.kind.is_counted(),
        }
    }
}
