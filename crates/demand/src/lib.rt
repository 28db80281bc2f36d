#![tactic(auto)]

// Condition C: what the sender's promises add up to over runs of calls. No code.
