#![tactic(auto)]

// The calls as they are, beside those of document 01 that they stand on: what stays, and that the conditions hold of them. No code.
