// The first two words of objects, worked out by hand.
ghost use Rattle.std.specs.Prelude.{◌≡◌, true, false};
ghost use Rattle.mm_model.specs.declared.object.Kind.TheVariants.{Traced, Leaf, Counted, Weak};
ghost use Rattle.mm_object.specs.Header.{first_word, second_word};

/// The kind stands in the lowest bits, a finalizer is bit 2, and the number of counted slots begins at bit 8.
pub fn worked_headers()
    ensures counted { first_word (record { kind = Counted; finalize = false; counted = 2; slots = 4 }) ≡ 514 }
    ensures slots { second_word (record { kind = Counted; finalize = false; counted = 2; slots = 4 }) ≡ 4 }
    ensures weak { first_word (record { kind = Weak; finalize = false; counted = 0; slots = 0 }) ≡ 3 }
    ensures finalized { first_word (record { kind = Leaf; finalize = true; counted = 0; slots = 2 }) ≡ 5 }
    ensures most { first_word (record { kind = Traced; finalize = true; counted = 1048575; slots = 1048575 })
        ≡ 268435204 }
{}
