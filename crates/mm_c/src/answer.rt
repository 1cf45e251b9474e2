// What a call answers C.
ghost use Rattle.std.specs.Prelude.{◌≡◌};
ghost use Rattle.mm_gc.specs.Replies.{area_reply, done_reply, map_reply, new_reply, put_reply, weak_reply, word_reply};
ghost use Rattle.mm_c.specs.Answer.{bare, refused, with_word, answer_of, answer_in_bulk};

use crate::status::Status;
use mm_gc::WordsFault;
use mm_model::{AreaAnswer, Mapped, Put, Refusal, WeakAnswer};

/// The number of a status, and a word, which is 0 where none is answered.
#[repr(C)]
#[derive(Clone, Copy)]
pub struct MmAnswer {
    pub status: u32,
    pub word: u32,
}

impl MmAnswer {
    pub(crate) fn bare(status: Status) -> MmAnswer
        ensures { result ≡ bare status }
    {
        MmAnswer {
            status: status.number(),
            word: 0,
        }
    }

    pub(crate) fn with_word(word: u32) -> MmAnswer
        ensures { result ≡ with_word word }
    {
        MmAnswer {
            status: Status::Done.number(),
            word,
        }
    }

    pub(crate) fn refused(because: Refusal) -> MmAnswer
        ensures { result ≡ refused because }
    {
        MmAnswer::bare(Status::of(because))
    }

    pub(crate) fn of_done(answer: Result<(), Refusal>) -> MmAnswer
        ensures { result ≡ answer_of (done_reply answer) }
    {
        match answer {
            Ok(()) => MmAnswer::bare(Status::Done),
            Err(because) => MmAnswer::refused(because),
        }
    }

    pub(crate) fn of_new(answer: Result<u32, Refusal>) -> MmAnswer
        ensures { result ≡ answer_of (new_reply answer) }
    {
        match answer {
            Ok(base) => MmAnswer::with_word(base),
            Err(because) => MmAnswer::refused(because),
        }
    }

    pub(crate) fn of_word(answer: Result<u32, Refusal>) -> MmAnswer
        ensures { result ≡ answer_of (word_reply answer) }
    {
        match answer {
            Ok(word) => MmAnswer::with_word(word),
            Err(because) => MmAnswer::refused(because),
        }
    }

    pub(crate) fn of_put(answer: Result<Put, Refusal>) -> MmAnswer
        ensures { result ≡ answer_of (put_reply answer) }
    {
        match answer {
            Ok(Put::Tight) => MmAnswer::with_word(0),
            Ok(Put::Loose) => MmAnswer::with_word(1),
            Err(because) => MmAnswer::refused(because),
        }
    }

    pub(crate) fn of_weak(answer: Result<WeakAnswer, Refusal>) -> MmAnswer
        ensures { result ≡ answer_of (weak_reply answer) }
    {
        match answer {
            Ok(WeakAnswer::Made(base)) => MmAnswer::with_word(base),
            Ok(WeakAnswer::Kept(base)) => MmAnswer::with_word(base),
            Err(because) => MmAnswer::refused(because),
        }
    }

    pub(crate) fn of_area(answer: Result<AreaAnswer, Refusal>) -> MmAnswer
        ensures { result ≡ answer_of (area_reply answer) }
    {
        match answer {
            Ok(area) => MmAnswer::with_word(area.number),
            Err(because) => MmAnswer::refused(because),
        }
    }

    pub(crate) fn of_map(answer: Result<Option<Mapped>, Refusal>) -> MmAnswer
        ensures { result ≡ answer_of (map_reply answer) }
    {
        match answer {
            Ok(Some(found)) => MmAnswer::with_word(found.base),
            Ok(None) => MmAnswer::bare(Status::Nothing),
            Err(because) => MmAnswer::refused(because),
        }
    }

    pub(crate) fn in_bulk(answer: Result<(), WordsFault>) -> MmAnswer
        ensures { result ≡ answer_in_bulk answer }
    {
        match answer {
            Ok(()) => MmAnswer::bare(Status::Done),
            Err(fault) => MmAnswer::bare(Status::of_fault(fault)),
        }
    }
}
