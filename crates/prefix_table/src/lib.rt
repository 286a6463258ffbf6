// What making and testing the prefix table share, with specs/ and proofs/: where their scan stands, and what holds of the entries along it. It has no code.
#![tactic(auto)]
