// The tree over the pages: its words begin with a node, then come the tree over the lower half and that over the upper.
ghost use Rattle.std.specs.Prelude.{◌≡◌, ℕ, ◌+◌, ◌-◌, ◌*◌, ◌^◌, ◌<◌, ◌≤◌, Bool, length, slice_index};
ghost use Rattle.mm_pages.specs.Free.{IsFreeButFirst, Marks};
ghost use Rattle.mm_pages.specs.Tree.{FindsLowest, IsTree, Shows, ShowsChange, tree_words};
ghost use Rattle.mm_pages.specs.Visits.{MarkVisits};

use crate::node::{
    HEAD, lower_part, paint_halves, push_down, read, refresh, span_of, upper_part, words_of, write,
};
use crate::runs::Runs;
use mm_steps::Steps;
use std::sync::ledger::Ledger;

/// Writes the tree in which all pages but the first are free.
pub fn plant(words: &mut [u32], height: u32)
    requires height { height ≤ 12 }
    requires sized { length words.old ≡ tree_words height }
    ensures { (pages : Marks) → IsFreeButFirst pages (2 ^ height) → Shows pages height words.new }
{
    if height == 0 {
        write(words, Runs::uniform(1, false));
        return;
    }
    let below = height - 1;
    paint_halves(words, below, true);
    plant(&mut words[HEAD..HEAD + words_of(below)], below);
    refresh(words, below);
}

/// Makes the pages of from .. to free or taken.
pub fn mark<L: Ledger>(
    words: &mut [u32],
    height: u32,
    from: u32,
    to: u32,
    free: bool,
    steps: &mut Steps<L>,
)
    requires height { height ≤ 12 }
    requires sized { length words.old ≡ tree_words height }
    requires tree { IsTree height words.old }
    requires ordered { from ≤ to }
    requires within { to ≤ 2 ^ height }
    ensures shows { ShowsChange height words.old words.new from to free }
    ensures visits { MarkVisits height from to steps.old steps.new }
{
    if from == to {
        return;
    }
    steps.tick();
    let span = span_of(height);
    if to - from == span {
        write(words, Runs::uniform(span, free));
        return;
    }
    let below = height - 1;
    push_down(words, below);
    let half = span_of(below);
    let size = words_of(below);
    mark(
        &mut words[HEAD..HEAD + size],
        below,
        from.min(half),
        to.min(half),
        free,
        steps,
    );
    mark(
        &mut words[HEAD + size..],
        below,
        from.max(half) - half,
        to.max(half) - half,
        free,
        steps,
    );
    refresh(words, below);
}

/// The lowest page at which `k` free pages begin.
pub fn find<L: Ledger>(words: &[u32], height: u32, k: u32, steps: &mut Steps<L>) -> u32
    requires height { height ≤ 12 }
    requires sized { length words.now ≡ tree_words height }
    requires some { 0 < k }
    requires tree { IsTree height words.now }
    requires fits { k ≤ slice_index words.now 0 }
    ensures lowest { FindsLowest height words.now k result }
    ensures within { result + k ≤ 2 ^ height }
    ensures visits { steps.new ≤ steps.old + height + 1 }
{
    steps.tick();
    if words[0] == span_of(height) {
        return 0;
    }
    let below = height - 1;
    let half = span_of(below);
    let lower = lower_part(words, below);
    let upper = upper_part(words, below);
    let low = read(lower);
    let high = read(upper);
    if k <= low.longest {
        find(lower, below, k, steps)
    } else if k <= low.right + high.left {
        half - low.right
    } else {
        half + find(upper, below, k, steps)
    }
}

/// Whether a page is free.
pub fn free_at(words: &[u32], height: u32, page: u32) -> bool
    requires height { height ≤ 12 }
    requires sized { length words.now ≡ tree_words height }
    requires tree { IsTree height words.now }
    requires within { page < 2 ^ height }
    ensures { (pages : Marks) → Shows pages height words.now → result ≡ pages page }
{
    if words[0] == 0 {
        return false;
    }
    if words[0] == span_of(height) {
        return true;
    }
    let below = height - 1;
    let half = span_of(below);
    if page < half {
        free_at(lower_part(words, below), below, page)
    } else {
        free_at(upper_part(words, below), below, page - half)
    }
}
