// Fourteen marked cases of the whole library.
#![tactic(auto)]

ghost use Rattle.cases.specs.Marked.{Marked};

// Does nothing: its contract is the marked cases, one statement over the definitions that the other crates' contracts cite.
pub fn marked_cases()
    ensures { Marked }
{}
