#![tactic(auto)]

// Definitions and laws that several crates cite. There is no code here.
