#![tactic(auto)]

// The balance of bytes: what becomes of the useful bytes of any sequence of packets at the receiver. No code.
