// What a node of the tree keeps of the pages that it stands for.
ghost use Rattle.std.specs.Prelude.{◌≡◌, ℕ, ◌+◌, ◌*◌, ◌^◌, ◌<◌, ◌≤◌};

/// The lengths of the longest free run among some pages, and of the free runs at their two ends.
#[derive(Clone, Copy)]
pub struct Runs {
    pub longest: u32,
    pub left: u32,
    pub right: u32,
}

/// How long the free run at an end of a whole is, where it is `run` long in the half at that end, and `next` pages of
/// the other half follow on it.
fn run_on(half: u32, run: u32, next: u32) -> u32
    requires small { half + next < 2 ^ 32 }
    ensures stays { run < half → result ≡ run }
    ensures goes { run ≡ half → result ≡ half + next }
{
    if run == half { half + next } else { run }
}

impl Runs {
    ghost use Rattle.mm_pages.specs.Free.{FitIn, JoinsRuns, Marks, TellsRuns};

    /// All of `span` pages free, or none.
    pub fn uniform(span: u32, free: bool) -> Runs
        ensures { (pages : Marks) → ((i : ℕ) → i < span → pages i ≡ free) → TellsRuns pages span result }
    {
        let run = if free { span } else { 0 };
        Runs {
            longest: run,
            left: run,
            right: run,
        }
    }

    /// The runs of `half` pages and the `half` pages above them, from those of each.
    pub fn joined(self, above: Runs, half: u32) -> Runs
        requires small { half ≤ 4096 }
        requires fits { FitIn half self }
        requires above_fits { FitIn half above }
        ensures { JoinsRuns half self above result }
    {
        let across = self.right + above.left;
        let within = self.longest.max(above.longest);
        Runs {
            longest: within.max(across),
            left: run_on(half, self.left, above.left),
            right: run_on(half, above.right, self.right),
        }
    }
}
