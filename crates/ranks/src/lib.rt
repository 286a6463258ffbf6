// Symbol orders: what smaller, Lyndon word and factors mean on bytes under an order, and that it is what they mean of the ranks.
// Definitions stand in specs/, laws in proofs/. It has no code; the look-up of ranks is in `symbols`, the test of an order in `order_test`.
#![tactic(auto)]
