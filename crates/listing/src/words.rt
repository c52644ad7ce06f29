// The words of an input.
ghost use Rattle.listing.specs.Taking.{WordsRead};

// The most bytes that an input may have.
pub const MOST_BYTES: usize = 65_536;

// The most words that it may have.
pub const MOST_WORDS: usize = MOST_BYTES / 4;

// The words that an input's bytes are, the low byte first, if they are whole words and not too many.
pub(crate) fn words_in<'a>(input: &[u8], room: &'a mut [u32; MOST_WORDS]) -> Option<&'a [u32]>
    ensures { WordsRead input.now result }
{
    let (chunks, left_over) = input.as_chunks::<4>();
    if !left_over.is_empty() {
        return None;
    }
    let words = room.get_mut(..chunks.len())?;
    for (place, word) in words.iter_mut().enumerate() {
        *word = u32::from_le_bytes(chunks[place]);
    }
    Some(words)
}
