// Objects that words make gray, and that become white.
ghost use Rattle.std.specs.Prelude.{◌≡◌, [], ◌∷◌, length};
ghost use Rattle.mm_model.specs.Views.SetsByBase.{with_grayed_objects};
ghost use Rattle.mm_model.specs.Views.ViewEffect.{with_colour};
ghost use Rattle.mm_model.specs.declared.object.Colour.TheVariants.{White};
ghost use Rattle.mm_model.specs.Views.ByBase.{changed};
ghost use Rattle.mm_audit.specs.Objects.{grays_in};

use crate::objects::Objects;
use mm_model::Colour;

// Objects begin at its multiples.
const GRAIN: u32 = 16;

impl Objects {
    /// The white object in which a word falls becomes gray, if it falls in one.
    pub fn shade(&mut self, word: u32)
        ensures shaded { self.new ≡ with_grayed_objects (word ∷ []) self.old }
        ensures size { length self.new ≡ length self.old }
    {
        let Some(found) = self.find(word) else {
            return;
        };
        match found.header.colour {
            Colour::White => self.colour(found.base, Colour::Gray),
            Colour::Gray | Colour::Black => {}
        }
    }

    /// Each white object in which one of the words falls becomes gray.
    pub fn shade_all(&mut self, words: &[u32])
        ensures shaded { self.new ≡ with_grayed_objects words.now self.old }
        ensures size { length self.new ≡ length self.old }
    {
        for &word in words {
            self.shade(word);
        }
    }

    /// All objects become white. It looks at each of them.
    pub fn whiten(&mut self)
        ensures white { self.new ≡ changed (with_colour White) self.old }
        ensures none_gray { grays_in self.new ≡ 0 }
        ensures size { length self.new ≡ length self.old }
    {
        let mut from = 0;
        while let Some(base) = self.next(from) {
            self.colour(base, Colour::White);
            from = base + GRAIN;
        }
    }
}
