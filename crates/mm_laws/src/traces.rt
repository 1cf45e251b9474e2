// Laws of how a trace is cut into lines and read.
ghost use Rattle.std.specs.Prelude.{◌≡◌, ◌∷◌, ◌++◌, [], ℕ, List, length, Some, None};
ghost use Rattle.std.specs.Option.{option_map};
ghost use Rattle.mm_model.specs.Logs.Trace.{lines_of, trace_reading, FaultAt};
ghost use Rattle.mm_laws.specs.Faults.{raised_by};

/// Bytes that end at a newline are cut into lines on their own, whatever comes behind them.
pub fn lines_are_cut_at_newlines()
    ensures { (front first rest : List ℕ) → first ≡ front ++ 10 ∷ []
        → lines_of (first ++ rest) ≡ lines_of first ++ lines_of rest }
{}

/// A trace behind another one that ends at a newline: it is read where the first one has no fault.
pub fn traces_join_at_a_newline()
    ensures commands { (front first rest : List ℕ) → first ≡ front ++ 10 ∷ []
        → (trace_reading first).fault ≡ None
        → (trace_reading (first ++ rest)).commands ≡ (trace_reading first).commands ++ (trace_reading rest).commands }
    ensures fault_before { (front first rest : List ℕ) (fault : FaultAt) → first ≡ front ++ 10 ∷ []
        → (trace_reading first).fault ≡ Some fault
        → trace_reading (first ++ rest) ≡ trace_reading first }
    ensures fault_after { (front first rest : List ℕ) → first ≡ front ++ 10 ∷ []
        → (trace_reading first).fault ≡ None
        → (trace_reading (first ++ rest)).fault
        ≡ option_map (raised_by (length (lines_of first))) (trace_reading rest).fault }
{}
