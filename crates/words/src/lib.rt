// The theory that the engine is proved against: words, factors, tables, rotations, trees and edits over lists of numbers.
// Definitions stand in specs/, laws in proofs/. It has no code; bytes, widths and limits are the concern of the crates above.
#![tactic(auto)]
