// Sizes of cells and runs of pages, and the places that pieces get.
ghost use Rattle.std.specs.Prelude.{◌≡◌, ◌∷◌, ◌++◌, [], Some, None};
ghost use Rattle.mm_model.specs.Places.SizeClass.{size_of, object_bytes};
ghost use Rattle.mm_model.specs.Places.Place.{place_among, Objects, Areas};
ghost use Rattle.mm_model.specs.declared.object.Size.TheVariants as sizes;
ghost use Rattle.mm_examples.specs.Pieces.{objects, areas};

/// The boundaries of the size classes.
#[tactic(auto, unfolding(mm_model::specs::Places::SizeClass::class_sizes))]
pub fn worked_sizes()
    ensures one { size_of 1 ≡ sizes.Small 0 }
    ensures sixteen { size_of 16 ≡ sizes.Small 0 }
    ensures seventeen { size_of 17 ≡ sizes.Small 1 }
    ensures greatest_cell { size_of 2048 ≡ sizes.Small 18 }
    ensures least_page { size_of 2049 ≡ sizes.Pages 1 }
    ensures one_page { size_of 4096 ≡ sizes.Pages 1 }
    ensures two_pages { size_of 4097 ≡ sizes.Pages 2 }
    ensures greatest_object { size_of (object_bytes 1048575) ≡ sizes.Pages 1025 }
{}

/// A sequence of places in one heap of six pages, in which the second object is freed after the fifth place.
#[tactic(auto, unfolding(mm_model::specs::Places::SizeClass::class_sizes))]
pub fn worked_places()
    ensures first_object { place_among [] 6 Objects (size_of 32) ≡ Some 4096 }
    ensures second_class { place_among (objects (4096 ∷ []) 32) 6 Objects (size_of 16) ≡ Some 8192 }
    ensures area_page { place_among (objects (8192 ∷ []) 16 ++ objects (4096 ∷ []) 32) 6 Areas (size_of 4)
        ≡ Some 12288 }
    ensures next_cell { place_among
        (areas (12288 ∷ []) 16 ++ objects (8192 ∷ []) 16 ++ objects (4096 ∷ []) 32) 6 Objects (size_of 32)
        ≡ Some 4128 }
    ensures two_pages { place_among
        (areas (12288 ∷ []) 16 ++ objects (8192 ∷ []) 16 ++ objects (4096 ∷ 4128 ∷ []) 32) 6 Objects (size_of 4100)
        ≡ Some 16384 }
    ensures freed_page { place_among
        (areas (12288 ∷ []) 16 ++ objects (16384 ∷ []) 8192 ++ objects (4096 ∷ 4128 ∷ []) 32) 6 Objects (size_of 2052)
        ≡ Some 8192 }
    ensures area_cell { place_among
        (areas (12288 ∷ []) 16 ++ objects (8192 ∷ []) 4096 ++ objects (16384 ∷ []) 8192
        ++ objects (4096 ∷ 4128 ∷ []) 32) 6 Areas (size_of 16)
        ≡ Some 12304 }
    ensures no_place { place_among
        (areas (12288 ∷ 12304 ∷ []) 16 ++ objects (8192 ∷ []) 4096 ++ objects (16384 ∷ []) 8192
        ++ objects (4096 ∷ 4128 ∷ []) 32) 6 Objects (size_of 16)
        ≡ None }
{}
