//! The words of descriptions, of script lines and of traces: of each value the word that it is written as, and of a text the value that it
//! names. Reading the word of a value gives that value, and a text that is read as a value is its word.
#![tactic(auto)]

mod names;
mod words;

pub use names::{is_name, is_place_name};
pub use words::{
    access_word, attr_named, attr_word, dynamic_kind_named, errno_word, given_attr_named,
    kind_named, kind_word, mode_named, mode_word, mpu_named, mpu_word, policy_named, policy_word,
    want_word,
};
