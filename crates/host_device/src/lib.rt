// The two ends together: what a device says to a built request and what the host's judge makes of it; a write as it is planned. There is no code here.
#![tactic(auto)]
