// The theory of wanted reach tables: which tables are reach tables, and a pattern for each that is. There is no code; `wanted_testing` tells
// whether a table is one, and `wanted_making` writes the pattern.
#![tactic(auto)]
