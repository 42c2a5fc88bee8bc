// Payloads of block files (document 01, "Block files"), written where they stand.
//
//     writing    the bytes of a payload, written to the buffer
#![tactic(auto)]

pub mod writing;

pub use writing::{put_byte, put_three, put_word, put_word_at, word_after, word_bytes};
