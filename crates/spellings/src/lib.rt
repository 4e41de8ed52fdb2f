// The spellings of a text's names, numbered: names are equal where their numbers are. `intern` asks for what the lexer leaves and for empty arrays as long as the
// text, which the names' stage makes.
#![tactic(auto)]

pub mod intern;
pub mod trie;
