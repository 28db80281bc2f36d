#![tactic(auto)]

// What the promises of the MDI reader and writer add up to (01, "MDI packet"): accepted exactly if well formed, read back what was
// written. There is no code here.
