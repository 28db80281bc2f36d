#![tactic(auto)]

// Fair spares: what the frames of any run of calls hand out beyond the shares, of two queues. No code.
