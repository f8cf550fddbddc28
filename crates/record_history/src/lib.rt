// Histories of calls are definitions and laws alone: see specs/ and proofs/. The code that drives a device is in the crate `record_driver`.
#![tactic(auto)]
