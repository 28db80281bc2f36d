#![tactic(auto)]

// What is sent comes back: the sender's and the receiver's promises taken together, over runs of calls. No code.
