// The words of one node of the tree, and those of its two children.
ghost use Rattle.std.specs.Prelude.{◌≡◌, ℕ, suc, ◌+◌, ◌-◌, ◌*◌, ◌^◌, ◌<◌, ◌≤◌, Bool, length, drop};
ghost use Rattle.mm_pages.specs.Free.{Marks, TellsRuns};
ghost use Rattle.mm_pages.specs.Tree.{tree_words, head_of, Shows, lower, upper, HalvesShow, IsTree, HalvesAreTrees};

use crate::runs::Runs;

/// How many words a node keeps of its pages. The tree over their lower half follows, then that over their upper half.
pub const HEAD: usize = 3;

/// How many pages a node at this height stands for.
pub fn span_of(height: u32) -> u32
    requires { height ≤ 12 }
    ensures { result ≡ 2 ^ height }
{
    1 << height
}

/// How many words the tree below a node takes, the node's own among them.
pub fn words_of(height: u32) -> usize
    requires { height ≤ 12 }
    ensures { result ≡ tree_words height }
{
    HEAD * (2 * span_of(height) as usize - 1)
}

/// The words of the tree over the lower half of a node's pages. `height` is that of the halves.
pub fn lower_part(words: &[u32], height: u32) -> &[u32]
    requires height { height < 12 }
    requires sized { length words.now ≡ tree_words (suc height) }
    ensures part { result.now ≡ lower height words.now }
    ensures sized { length result.now ≡ tree_words height }
{
    &words[HEAD..HEAD + words_of(height)]
}

/// The words of the tree over the upper half.
pub fn upper_part(words: &[u32], height: u32) -> &[u32]
    requires height { height < 12 }
    requires sized { length words.now ≡ tree_words (suc height) }
    ensures part { result.now ≡ upper height words.now }
    ensures sized { length result.now ≡ tree_words height }
{
    &words[HEAD + words_of(height)..]
}

/// What the node at the head of the words says.
pub fn read(words: &[u32]) -> Runs
    requires { 3 ≤ length words.now }
    ensures { result ≡ head_of words.now }
{
    Runs {
        longest: words[0],
        left: words[1],
        right: words[2],
    }
}

/// Writes the node at the head of the words.
pub fn write(words: &mut [u32], runs: Runs)
    requires { 3 ≤ length words.old }
    ensures head { head_of words.new ≡ runs }
    ensures rest { drop 3 words.new ≡ drop 3 words.old }
{
    words[0] = runs.longest;
    words[1] = runs.left;
    words[2] = runs.right;
}

/// Makes all pages of both halves free, or all taken.
pub fn paint_halves(words: &mut [u32], height: u32, free: bool)
    requires height { height < 12 }
    requires sized { length words.old ≡ tree_words (suc height) }
    ensures { (pages : Marks) → ((i : ℕ) → i < 2 ^ suc height → pages i ≡ free) → HalvesShow pages height words.new }
{
    let runs = Runs::uniform(span_of(height), free);
    let size = words_of(height);
    write(&mut words[HEAD..HEAD + size], runs);
    write(&mut words[HEAD + size..], runs);
}

/// Makes both halves of a node say what they are, where the node alone said it.
pub fn push_down(words: &mut [u32], height: u32)
    requires height { height < 12 }
    requires sized { length words.old ≡ tree_words (suc height) }
    ensures { (free : Marks) → Shows free (suc height) words.old → HalvesShow free height words.new }
{
    let longest = words[0];
    if longest == 0 {
        paint_halves(words, height, false);
    } else if longest == 2 * span_of(height) {
        paint_halves(words, height, true);
    }
}

/// Makes a node say again what its halves say.
pub fn refresh(words: &mut [u32], height: u32)
    requires height { height < 12 }
    requires sized { length words.old ≡ tree_words (suc height) }
    requires tree { HalvesAreTrees height words.old }
    ensures { (free : Marks) → HalvesShow free height words.old → Shows free (suc height) words.new }
{
    let low = read(lower_part(words, height));
    let high = read(upper_part(words, height));
    write(words, low.joined(high, span_of(height)));
}
