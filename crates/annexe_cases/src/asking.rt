// Asks what an input is answered with.
use crate::inputs::WORKED;
use listing::list;
use std::alloc::{AllocError, Global};
use std::process::Abort;
use std::test::Fail;

// The text that an input is answered with: its listing, or why it has none.
fn answer(alloc: Global, input: &[u8]) -> Result<String, AllocError> {
    match list(input) {
        Ok(listing) => format!(in alloc; "{listing}"),
        Err(refusal) => format!(in alloc; "{refusal}"),
    }
}

// An input must be answered with this text, and no other.
pub(crate) fn check_answer(
    rt: &(impl Abort + AllocGlobal),
    input: &[u8],
    expected: &str,
) -> Result<(), Fail> {
    let text = answer(rt.alloc(), input)?;
    assert_eq!(rt; text.as_str(), expected);
    Ok(())
}

// The bytes of words, the low byte of each first.
fn bytes_of(alloc: Global, words: &[u32]) -> Result<Vec<u8>, AllocError> {
    let mut bytes = Vec::new(alloc);
    for word in words {
        bytes.extend_from_slice(&word.to_le_bytes())?;
    }
    Ok(bytes)
}

// The same of an input that is given as words.
pub(crate) fn check_words(
    rt: &(impl Abort + AllocGlobal),
    words: &[u32],
    expected: &str,
) -> Result<(), Fail> {
    let input = bytes_of(rt.alloc(), words)?;
    check_answer(rt, input.as_slice(), expected)
}

// The same of the worked input with one word changed; words are counted from 0.
pub(crate) fn check_with(
    rt: &(impl Abort + AllocGlobal),
    at: usize,
    word: u32,
    expected: &str,
) -> Result<(), Fail> {
    assert!(rt; at < WORKED.len() / 4);
    let mut input = WORKED;
    input[4 * at..4 * at + 4].copy_from_slice(&word.to_le_bytes());
    check_answer(rt, &input, expected)
}
