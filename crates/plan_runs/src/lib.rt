#![tactic(auto)]

// Runs of the sender's calls by a record of settings that changes in the night (02, E10): when a set takes over, and that the conditions hold
// over it. No code.
