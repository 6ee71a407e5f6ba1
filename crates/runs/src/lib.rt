// Runs: the acts of an office on a sheet in their order, and the law that all their pages together keep.
#![tactic(auto)]

ghost use Rattle.runs.specs.Law.{EveryListRuns, EveryRunIsLawful};
ghost use Rattle.runs.specs.Runs.{CallsRun};
ghost use Rattle.runs.specs.Worked.{WorkedRun};

// The law over runs: after every act of every run, all pages together leave every sensitive cell its pair.
pub fn runs_are_lawful()
    ensures { EveryRunIsLawful }
{}

// No list of acts is without a run.
pub fn acts_have_runs()
    ensures { EveryListRuns }
{}

// Calls that each do their act make up a run.
pub fn calls_make_runs()
    ensures { CallsRun }
{}

// A run with a print that is refused, a list that is refused, and a page.
pub fn worked_run()
    ensures { WorkedRun }
{}
