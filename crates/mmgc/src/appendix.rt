// What stands behind a log.
ghost use Rattle.std.specs.Prelude.{◌≡◌, ◌≤◌, IfOk, None};
ghost use Rattle.mm_gc.specs.Gc.{view_of_gc};
ghost use Rattle.mm_model.specs.Good.{IsGood};
ghost use Rattle.mm_model.specs.State.{State};
ghost use Rattle.mm_model.specs.Views.View.{Shows, view_of};
ghost use Rattle.mm_why.specs.Path.{shown_in};
ghost use Rattle.mmgc.specs.Added.{IsAnswer};
ghost use Rattle.mmgc.specs.Appending.{Appended, HasPages, IsReadyFor, word_of};
ghost use Rattle.mmgc.specs.Logging.{kept_by, KeepsOn};

use crate::answer::write_why;
use crate::log::LogWriter;
use mm_gc::Gc;
use mm_io::Sink;
use mm_why::Why;
use std::alloc::{AllocError, Global};

/// A word of which it is to be told why its object is kept, with room for the search.
#[derive(Drop)]
pub(crate) struct Question {
    pub(crate) word: u32,
    pub(crate) why: Why,
}

/// What stands behind a log, with all the memory that it takes.
#[derive(Drop)]
pub(crate) struct Appendix {
    pub(crate) why: Option<Question>,
}

impl Question {
    fn make(alloc: Global, word: u32, pages: u32) -> Result<Question, AllocError>
        requires two { 2 ≤ pages }
        requires most { pages ≤ 4096 }
        ensures { IfOk result (λ question. (question.word ≡ word) × (question.why.pages ≡ pages)) }
    {
        let why = Why::make(alloc, pages)?;
        Ok(Question { word, why })
    }
}

impl Appendix {
    /// Why the object is kept in which a word falls, if that is asked, behind the log of a heap of at most so many
    /// pages.
    pub(crate) fn make(alloc: Global, why: Option<u32>, pages: u32) -> Result<Appendix, AllocError>
        requires two { 2 ≤ pages }
        requires most { pages ≤ 4096 }
        ensures asked { IfOk result (λ appendix. word_of appendix ≡ why) }
        ensures ready { IfOk result (λ appendix. IsReadyFor pages appendix) }
    {
        match why {
            Some(word) => {
                let question = Question::make(alloc, word, pages)?;
                Ok(Appendix {
                    why: Some(question),
                })
            }
            None => Ok(Appendix { why: None }),
        }
    }

    /// Writes it for the heap as it is.
    pub(crate) fn write<K: Sink>(&mut self, log: &mut LogWriter<'_, K>, heap: &Gc)
        requires shows { HasPages (view_of_gc heap.now) }
        requires ready { IsReadyFor heap.now.settings.max self.old }
        ensures written { (a : State) → Shows (view_of_gc heap.now) a →
            Appended (IsAnswer (word_of self.old) (shown_in (view_of a)))
            (kept_by K.taken log.old) (kept_by K.taken log.new) }
        ensures kept { KeepsOn K.faults K.taken log.old log.new }
    {
        if let Some(question) = &mut self.why {
            write_why(log, &mut question.why, heap, question.word);
        }
    }
}
