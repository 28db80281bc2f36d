#![tactic(auto)]

// What the promises of the public calls add up to (01, "Acceptance of the promises"). There is no code here.
