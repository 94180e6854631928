//! The code that the programs share: the reasons to refuse, the words on the command line, and the files that they open.
#![tactic(auto)]

mod files;
mod refusal;
mod words;

pub use files::{block_writer, open_file};
pub use refusal::{Refusal, text_status};
pub use words::{OptionFault, fault_of_words, path_of, texts_of, word_of, words_given};
