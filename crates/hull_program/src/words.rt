ghost use Rattle.std.specs.Prelude.{◌≡◌, ◌≢◌, ◌⊎◌, IfErr, IfOk, string_bytes};
ghost use Rattle.clap.specs.Values.{kind_of};
ghost use Rattle.hull_program.specs.Words.{IsOneOf, texts_of, words_as_texts};

use super::refusal::Refusal;
use clap::error::ErrorKind;
use clap::{ArgMatches, Error};
use std::alloc::Global;
use std::env;
use std::rt::Env;

/// Why the words after a program's name are refused.
#[derive(Clone, Copy, PartialEq, Eq, Debug)]
pub enum OptionFault {
    /// The program takes no such words.
    Usage,
    /// Memory to read them was refused.
    Memory,
}

/// Returns the words after the program's name.
///
/// # Errors
///
/// Fails with `Memory` if memory was refused, with `Usage` if the system does not provide the words.
pub fn words_given<R: Env + AllocGlobal>(rt: &R) -> Result<Vec<String>, Refusal>
    ensures { IfErr result (λ refusal. (refusal ≡ Refusal.Memory) ⊎ (refusal ≡ Refusal.Usage)) }
{
    let mut words = Vec::new(rt.alloc());
    let args = env::args(rt).map_err(|error| Refusal::of_system(&error, Refusal::Usage))?;
    for word in args.skip(1) {
        words.push(word).map_err(|_| Refusal::Memory)?;
    }
    Ok(words)
}

/// Returns the words as texts.
///
/// # Errors
///
/// Fails with `Memory` if memory was refused.
pub fn texts_of(alloc: Global, words: &[String]) -> Result<Vec<&str>, OptionFault>
    ensures texts { IfOk result (λ texts. texts_of texts.items ≡ words_as_texts words.now) }
    ensures memory { IfErr result (λ fault. fault ≡ OptionFault.Memory) }
{
    let mut texts = Vec::new(alloc);
    for word in words {
        texts.push(word.as_str()).map_err(|_| OptionFault::Memory)?;
    }
    Ok(texts)
}

/// Returns why words that could not be read are refused: `Memory` if memory was refused to their reader, and else
/// `Usage`.
pub fn fault_of_words(error: &Error) -> OptionFault
    ensures memory { kind_of error.now ≡ ErrorKind.OutOfMemory → result ≡ OptionFault.Memory }
    ensures usage { kind_of error.now ≢ ErrorKind.OutOfMemory → result ≡ OptionFault.Usage }
{
    if error.kind() == ErrorKind::OutOfMemory {
        OptionFault::Memory
    } else {
        OptionFault::Usage
    }
}

/// Returns this path as it was written. It is looked up among the words, so that the contract can state that.
///
/// # Errors
///
/// Fails with `Usage` if it is none of the words, with `Memory` if memory was refused.
pub fn word_of(alloc: Global, path: &str, words: &[&str]) -> Result<String, OptionFault>
    ensures word { IfOk result (λ word. IsOneOf (texts_of words.now) (string_bytes word)) }
    ensures same { IfOk result (λ word. string_bytes word ≡ path.now) }
{
    for word in words {
        if *word == path {
            return String::from_str(alloc, word).map_err(|_| OptionFault::Memory);
        }
    }
    Err(OptionFault::Usage)
}

/// Returns the path that was given under this id, as it was written.
///
/// # Errors
///
/// Fails with `Usage` if none was given, with `Memory` if memory was refused.
pub fn path_of(
    alloc: Global,
    matches: &ArgMatches<'_>,
    id: &str,
    words: &[&str],
) -> Result<String, OptionFault>
    ensures { IfOk result (λ path. IsOneOf (texts_of words.now) (string_bytes path)) }
{
    let Some(path) = matches.get_str(id) else {
        return Err(OptionFault::Usage);
    };
    word_of(alloc, path, words)
}
