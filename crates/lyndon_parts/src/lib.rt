// The calls for the factors of a prefix or a suffix by a table answer alike: what `lyndon_prefix` and `lyndon_suffix` prove by is in proofs/.
// There is no code.
#![tactic(auto)]
