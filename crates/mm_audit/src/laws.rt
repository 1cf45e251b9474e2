// Laws of what an audit answers, that there is one answer for each log and it means what it says, and of counts and
// colours.
ghost use Rattle.std.specs.Prelude.{◌≡◌, ◌≢◌, ℕ, ◌+◌, ◌≤◌, ◌<◌, ◌==◌, ◌++◌, IsTrue, List, [], ◌∷◌, map, length, Some};
ghost use Rattle.std.specs.Prelude.{slice_get, false};
ghost use Rattle.std.specs.List.{concat};
ghost use Rattle.mm_model.specs.declared.command.Command.{Command};
ghost use Rattle.mm_model.specs.declared.line.Line.{Line};
ghost use Rattle.mm_model.specs.declared.settings.Settings.{Settings};
ghost use Rattle.mm_model.specs.Logs.Spelling.{spelling, spelling_of};
ghost use Rattle.mm_model.specs.Logs.Trace.{rest_of, pieces_of, ended_lines};
ghost use Rattle.mm_model.specs.Views.ObjectView.{ObjectView, ObjectsByBase, slot_kind_of};
ghost use Rattle.mm_model.specs.Object.{is_scanned};
ghost use Rattle.mm_model.specs.Views.ByBase.{Begins, Based, with_entry};
ghost use Rattle.mm_model.specs.Views.SetsByBase.{count_at, zero_count_of, with_grayed_objects};
ghost use Rattle.mm_audit.specs.Counts.{counts_of, zeros_in, one_if, with_word, moved, IsGrain};
ghost use Rattle.mm_model.specs.Views.View.{View};
ghost use Rattle.mm_model.specs.Views.ViewWords.{view_zero_count, view_refuses_word};
ghost use Rattle.mm_model.specs.Views.ViewTests.{tests_of_view};
ghost use Rattle.mm_model.specs.Words.{CountedSlot};
ghost use Rattle.mm_model.specs.Views.GoodView.{IsGoodView};
ghost use Rattle.mm_model.specs.Views.ViewStore.{view_put};
ghost use Rattle.mm_audit.specs.declared.count.Count.TheVariants.{Exact};
ghost use Rattle.mm_audit.specs.Parts.{Parts, ShowParts, view_counts};
ghost use Rattle.mm_audit.specs.declared.answer.Answer.{Answer};
ghost use Rattle.mm_audit.specs.declared.answer.Answer.TheVariants as answers;
ghost use Rattle.mm_audit.specs.Audit.{log_lines, IsWholeLog, Fits, IsAudited};

/// Settings, commands and bytes determine the answer. So where it is `Yes`, it isn't `No`.
pub fn an_answer_is_determined()
    ensures same { (settings : Settings) (commands : List Command) (bytes : List ℕ) (answer other : Answer) →
        IsAudited settings commands bytes answer → IsAudited settings commands bytes other → answer ≡ other }
    ensures excluded { (settings : Settings) (commands : List Command) (bytes : List ℕ) (n : ℕ) →
        IsAudited settings commands bytes answers.Yes → IsAudited settings commands bytes (answers.No n) → ⊥ }
{}

/// No log is without an answer, where the least number of pages isn't above the greatest.
pub fn every_log_has_an_answer()
    ensures { (settings : Settings) (commands : List Command) (bytes : List ℕ) → settings.pages ≤ settings.max
        → ((answer : Answer) → IsAudited settings commands bytes answer → ⊥) → ⊥ }
{}

/// Where lines fit, so do fewer of them. So each line before the one that `No` names fits, and it doesn't.
pub fn each_front_fits()
    ensures fewer { (settings : Settings) (commands : List Command) (bytes : List ℕ) (count fewer : ℕ) →
        Fits settings commands bytes count → fewer ≤ count → Fits settings commands bytes fewer }
    ensures before { (settings : Settings) (commands : List Command) (bytes : List ℕ) (n count : ℕ) →
        IsAudited settings commands bytes (answers.No n) → count < n → Fits settings commands bytes count }
    ensures not_this { (settings : Settings) (commands : List Command) (bytes : List ℕ) (n : ℕ) →
        IsAudited settings commands bytes (answers.No n) → Fits settings commands bytes n → ⊥ }
{}

/// The lines of a log are all of its bytes in order.
pub fn lines_make_up_a_log()
    ensures { (bytes : List ℕ) → concat (log_lines bytes) ≡ bytes }
{}

/// The lines of a spelled log are the spellings of its lines. So all lines of a whole log fit.
pub fn spellings_are_lines()
    ensures lines { (log : List Line) → log_lines (spelling_of log) ≡ map spelling log }
    ensures fits { (settings : Settings) (commands : List Command) (bytes : List ℕ) →
        IsWholeLog settings commands bytes → Fits settings commands bytes (length (log_lines bytes)) }
{}

/// What stands behind the last newline byte is no spelling of a line. So only lines that have ended fit.
pub fn a_rest_is_no_spelling()
    ensures rest { (line : Line) (bytes : List ℕ) → spelling line ≡ rest_of bytes → ⊥ }
    ensures ended { (settings : Settings) (commands : List Command) (bytes : List ℕ) (count : ℕ) →
        Fits settings commands bytes count → count ≤ length (ended_lines (pieces_of bytes)) }
{}

/// Where the counts of objects are right, the number of zeros is that of the zero-count objects.
pub fn zeros_are_zero_count_objects()
    ensures { (objects : ObjectsByBase) (outside : ℕ → ℕ) →
        zeros_in (counts_of objects outside) ≡ zero_count_of objects outside }
{}

/// The parts of a state show one view, and what is kept beside it tells the number of zero-count objects and whether
/// the stack is full.
pub fn parts_show_a_view()
    ensures one { (parts : Parts) (view other : View) → ShowParts parts view → ShowParts parts other → view ≡ other }
    ensures zeros { (parts : Parts) (view : View) → ShowParts parts view
        → zeros_in parts.counts ≡ view_zero_count view }
    ensures full { (parts : Parts) (view : View) → ShowParts parts view
        → (length parts.stack.words == parts.stack.limit) ≡ (tests_of_view view).is_stack_full }
{}

/// Where a counted slot is written, the base that stood there is held once less, and the one that is written once more.
pub fn a_write_moves_one_reference()
    ensures { (base : ℕ) (objects : ObjectsByBase) (outside : ℕ → ℕ) (by : ℕ) (holder : ObjectView)
        (slot word old : ℕ) → Begins objects by holder → IsTrue (is_scanned holder.kind) → slot < holder.counted
        → slice_get holder.words slot ≡ Some old
        → count_at (with_entry by (Some (with_word slot word holder)) objects) outside base + one_if (old == base)
        ≡ count_at objects outside base + one_if (word == base) }
{}

/// `put` moves one count where the slot is counted, and none else.
pub fn a_put_moves_one_count()
    ensures counted { (view : View) (o : Based ObjectView) (slot word old : ℕ) → IsGoodView view
        → Begins view.objects o.base o.value → slot_kind_of o.value slot ≡ CountedSlot
        → slice_get o.value.words slot ≡ Some old
        → view_counts (view_put view o slot word) ≡ moved old word (view_counts view) }
    ensures other { (view : View) (o : Based ObjectView) (slot word : ℕ)
        → Begins view.objects o.base o.value → slot_kind_of o.value slot ≢ CountedSlot
        → view_counts (view_put view o slot word) ≡ view_counts view }
{}

/// What `exchange` asks for holds of a `put` into a counted slot that isn't refused.
pub fn a_put_may_move_its_count()
    ensures old { (view : View) (o : Based ObjectView) (slot old : ℕ) → IsGoodView view
        → Begins view.objects o.base o.value → slot_kind_of o.value slot ≡ CountedSlot
        → slice_get o.value.words slot ≡ Some old → IsGrain (view_counts view) old }
    ensures held { (view : View) (o : Based ObjectView) (slot old : ℕ) → IsGoodView view
        → Begins view.objects o.base o.value → slot_kind_of o.value slot ≡ CountedSlot
        → slice_get o.value.words slot ≡ Some old → Begins (view_counts view) old (Exact 0) → ⊥ }
    ensures new { (view : View) (o : Based ObjectView) (word : ℕ) → Begins view.objects o.base o.value
        → view_refuses_word view CountedSlot word ≡ false → IsGrain (view_counts view) word }
{}

/// Words together make gray what one after the other does.
pub fn words_gray_one_by_one()
    ensures none { (objects : ObjectsByBase) → with_grayed_objects [] objects ≡ objects }
    ensures one_more { (objects : ObjectsByBase) (words : List ℕ) (word : ℕ) →
        with_grayed_objects (words ++ word ∷ []) objects
        ≡ with_grayed_objects (word ∷ []) (with_grayed_objects words objects) }
{}
