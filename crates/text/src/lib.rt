// The definitions of both listings, with the laws of their lines, and the length of the longest listing. `text_fields` and `text_writers` write them.
#![tactic(auto)]

use refusals::MAX_PATTERN;

// No listing of an accepted pattern is longer: the header, and 20 for each byte. The line of a word of one byte has four commas and the line
// end, two numbers of at most five digits, a 1 and a 0, and a pair of digits; of longer words there are fewer to a byte.
pub const MAX_LISTING: usize = 32 + 20 * MAX_PATTERN;
