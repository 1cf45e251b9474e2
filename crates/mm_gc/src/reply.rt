// The replies that the answers of calls stand for.
ghost use Rattle.std.specs.Prelude.{◌≡◌};
ghost use Rattle.mm_gc.specs.Replies.{new_reply, done_reply, word_reply, put_reply, weak_reply, area_reply, map_reply};

use mm_model::{AreaAnswer, Mapped, Put, Refusal, Reply, WeakAnswer};

pub(crate) fn new_reply(answer: Result<u32, Refusal>) -> Reply
    ensures { result ≡ new_reply answer }
{
    match answer {
        Ok(base) => Reply::New(base),
        Err(because) => Reply::Refused(because),
    }
}

pub(crate) fn done_reply(answer: Result<(), Refusal>) -> Reply
    ensures { result ≡ done_reply answer }
{
    match answer {
        Ok(()) => Reply::Done,
        Err(because) => Reply::Refused(because),
    }
}

pub(crate) fn word_reply(answer: Result<u32, Refusal>) -> Reply
    ensures { result ≡ word_reply answer }
{
    match answer {
        Ok(word) => Reply::Word(word),
        Err(because) => Reply::Refused(because),
    }
}

pub(crate) fn put_reply(answer: Result<Put, Refusal>) -> Reply
    ensures { result ≡ put_reply answer }
{
    match answer {
        Ok(Put::Tight) => Reply::Done,
        Ok(Put::Loose) => Reply::Loose,
        Err(because) => Reply::Refused(because),
    }
}

pub(crate) fn weak_reply(answer: Result<WeakAnswer, Refusal>) -> Reply
    ensures { result ≡ weak_reply answer }
{
    match answer {
        Ok(WeakAnswer::Made(base)) => Reply::New(base),
        Ok(WeakAnswer::Kept(base)) => Reply::Word(base),
        Err(because) => Reply::Refused(because),
    }
}

pub(crate) fn area_reply(answer: Result<AreaAnswer, Refusal>) -> Reply
    ensures { result ≡ area_reply answer }
{
    match answer {
        Ok(area) => Reply::Area(area),
        Err(because) => Reply::Refused(because),
    }
}

pub(crate) fn map_reply(answer: Result<Option<Mapped>, Refusal>) -> Reply
    ensures { result ≡ map_reply answer }
{
    match answer {
        Ok(None) => Reply::Nothing,
        Ok(Some(found)) => Reply::Object(found),
        Err(because) => Reply::Refused(because),
    }
}
