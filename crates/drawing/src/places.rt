// The codes of a drawing's places: one word each.
ghost use Rattle.std.specs.Prelude.{◌≡◌, ◌==◌};
ghost use Rattle.words.specs.Words.{done};
ghost use Rattle.drawing.specs.Checks.{is_drawn, is_place_word};

use crate::table::Table;
use words::CodeWord;

// Kept: a number, since the codes of all drawn places are counted from it.

/// The code of the first drawn place; those of the others follow.
pub(crate) const START: u32 = 0x9000_0000;

/// Whether a word names a drawn place.
pub(crate) fn is_drawn(table: &Table<'_>, word: u32) -> bool
    ensures { result ≡ is_drawn table.now.words.now word }
{
    match CodeWord::try_from(word) {
        Ok(CodeWord::Record(place)) => place < table.places(),
        _ => false,
    }
}

/// Whether a word says that the place is done.
pub(crate) fn is_done(word: u32) -> bool
    ensures { result ≡ (word == done) }
{
    word == CodeWord::Done.into()
}

/// Whether a word is the code of a place: a drawn one or done.
pub(crate) fn is_place_word(table: &Table<'_>, word: u32) -> bool
    ensures { result ≡ is_place_word table.now.words.now word }
{
    is_done(word) || is_drawn(table, word)
}
