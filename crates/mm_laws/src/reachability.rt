// Laws on which objects are reapable, protected and reached, and on what the phases spare.
ghost use Rattle.std.specs.Prelude.{◌↔◌, ℕ, List, not, is_some, IsTrue};
ghost use Rattle.mm_model.specs.Object.{Object};
ghost use Rattle.mm_model.specs.State.{State, Lives};
ghost use Rattle.mm_model.specs.Words.{stack_words, names};
ghost use Rattle.mm_model.specs.Count.{is_zero_count};
ghost use Rattle.mm_model.specs.Sets.Protected.{IsProtected};
ghost use Rattle.mm_model.specs.Sets.Reached.{IsReached};
ghost use Rattle.mm_model.specs.Sets.Reapable.{IsReapable};
ghost use Rattle.mm_model.specs.Sets.Marking.{IsFreedAtFinish};
ghost use Rattle.mm_model.specs.Phase.{AreReaped, AreCollected, AreFinished, collected};
ghost use Rattle.mm_model.specs.Good.{IsGood};
ghost use Rattle.mm_model.specs.Logs.Turns.{Reaping, Collecting, Finishing, Frees};

/// A zero-count object in which no stack word falls is reapable.
pub fn unheld_is_reapable()
    ensures { (a : State) (birth : ℕ) (object : Object) → Lives a birth object → IsTrue (is_zero_count a object)
        → IsTrue (not (names (stack_words a) object)) → IsReapable a birth }
{}

/// Counting alone never takes a protected object for a dead one.
pub fn reapable_is_not_protected()
    ensures { (a : State) (birth : ℕ) → IsReapable a birth → IsProtected a birth → ⊥ }
{}

/// What is protected is conservatively reached. The base of an object falls in it, since blocks of a good state have
/// bytes.
pub fn protected_is_reached()
    ensures { (a : State) (birth : ℕ) → IsGood a → IsProtected a birth → IsReached a birth }
{}

/// What marking leaves white once the roots are looked at again isn't reached, however far marking has come.
pub fn unmarked_is_not_reached()
    ensures { (a : State) (birth : ℕ) → IsGood a → IsTrue (is_some a.cycle) → IsFreedAtFinish a birth
        → IsReached a birth → ⊥ }
{}

/// No phase frees a protected object.
pub fn phases_spare_protected()
    ensures reap { (a : State) (bases : List ℕ) → IsGood a → AreReaped a bases → (birth : ℕ) → IsProtected a birth
        → Frees (record { way = Reaping; before = a; bases = bases }) birth → ⊥ }
    ensures collection { (a : State) (bases : List ℕ) → IsGood a → AreCollected a bases → (birth : ℕ)
        → IsProtected a birth → Frees (record { way = Collecting; before = a; bases = bases }) birth → ⊥ }
    ensures finish { (a : State) (bases : List ℕ) → IsGood a → IsTrue (is_some a.cycle) → AreFinished a bases
        → (birth : ℕ) → IsProtected a birth
        → Frees (record { way = Finishing; before = a; bases = bases }) birth → ⊥ }
{}

/// A full collection leaves exactly the reached objects.
pub fn collections_leave_what_is_reached()
    ensures exactly { (a : State) (bases : List ℕ) (birth : ℕ) → IsGood a → AreCollected a bases
        → ((left : Object) × Lives (collected bases a) birth left) ↔ IsReached a birth }
    ensures lived { (a : State) (bases : List ℕ) (birth : ℕ) (left : Object) → Lives (collected bases a) birth left
        → (object : Object) × Lives a birth object }
{}
