// The device between two bytes, what one byte and a delivery of bytes make of it, and laws about that. There is no code here.
#![tactic(auto)]
