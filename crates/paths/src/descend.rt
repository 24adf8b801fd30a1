// The descent from a place to one of its edges, by the edge's id.
ghost use Rattle.std.specs.Prelude.{◌≡◌, ◌+◌, ◌≤◌, length, map};
ghost use Rattle.std.specs.Option.{option_map};
ghost use Rattle.words.specs.Words.{payload_of};
ghost use Rattle.rules.specs.Descents.{within, path_to};
ghost use Rattle.paths.specs.Paths.{head_of, code_words, path_of, found, Descended, head_named, from_word, shape_of};
ghost use Rattle.paths.specs.Places.{place_of};
ghost use Rattle.paths.specs.Sheets.{term_of, term_at, span_at};

use crate::code::Code;
use crate::path::{Addition, Head, Path, arriving, under};
use descent::span;
use model::Model;
use sheet::{Reader, Step};
use words::{CodeWord, payload};

/// How many slots a record has; one that is no behaviour reads as a stop, which has one.
fn slots(model: &Model, number: u32) -> usize
    ensures { result ≡ span_at model.now.table.items number }
{
    span(model.size(number)).max(1) as usize
}

/// How a record's slots come from those of the records below it.
// Kept: `Nothing` is one of seven cases; an Option around the others would be matched twice.
#[derive(Clone, Copy)]
enum Shape {
    /// Its one slot is vacant.
    Nothing,
    /// It has an edge of its own.
    Own,
    /// The slots of the first child, then those of the second.
    Both(u32, u32),
    /// The slots of its body, under the record as a frame.
    Framed(u32),
    /// A condition and a body.
    When(u32, u32),
    /// A condition and a body.
    Urgent(u32, u32),
    /// The slots of another record.
    Inner(u32),
}

/// The shape of what a record says.
fn step_shape(reader: &Reader<'_>, step: Step) -> Shape
    ensures { result ≡ shape_of (term_of reader.now.words.now step) }
{
    match step {
        Step::Stop | Step::Link => Shape::Nothing,
        Step::Act(_, _) | Step::Break | Step::Throw(_) => Shape::Own,
        Step::Alt(first, second) => Shape::Both(first, second),
        Step::Seq(body, _) | Step::Loop(body) | Step::Try(body, _) => Shape::Framed(body),
        Step::When(condition, body) => Shape::When(condition, body),
        Step::Urgent(condition, body) => Shape::Urgent(condition, body),
        Step::Call(process) => Shape::Inner(reader.body(process)),
    }
}

/// The shape of a record.
fn shape_of(model: &Model, number: u32) -> Shape
    ensures { result ≡ shape_of (term_at model.now.words.items number) }
{
    let reader = model.reader();
    step_shape(&reader, reader.step(number))
}

/// The path from a record to one of its slots. The depth falls at each descent.
fn descend(model: &Model, number: u32, id: usize) -> Option<Path>
    ensures { Descended model.now.words.items model.now.table.items number id result }
{
    match shape_of(model, number) {
        Shape::Nothing => None,
        Shape::Own => arriving(Head::Behaviour(number), id),
        Shape::Both(first, second) => {
            let split = slots(model, first);
            if id < split {
                descend(model, first, id)
            } else {
                descend(model, second, id - split)
            }
        }
        Shape::Framed(body) => under(Addition::Frame(number), descend(model, body, id)),
        Shape::When(condition, body) => under(Addition::When(condition), descend(model, body, id)),
        Shape::Urgent(condition, body) => under(
            Addition::Urgent(condition),
            descend(model, body, id),
        ),
        Shape::Inner(body) => descend(model, body, id),
    }
}

/// The head of a place, which its first word names; none where the place is done. A word of no head counts as a record's.
fn head_named(word: u32) -> Option<Head>
    ensures { option_map head_of result ≡ head_named word }
{
    match CodeWord::try_from(word) {
        Ok(CodeWord::Done) => None,
        Ok(CodeWord::Failed) => Some(Head::Failed),
        Ok(CodeWord::Record(number)) => Some(Head::Behaviour(number)),
        Ok(CodeWord::Frame(_) | CodeWord::Pair(_)) | Err(_) => Some(Head::Behaviour(payload(word))),
    }
}

/// The path from a place's head, which its first word gives, to one of its slots.
fn from_head(model: &Model, word: u32, id: usize) -> Option<Path>
    ensures { found result ≡ from_word model.now.words.items model.now.table.items word id }
{
    match head_named(word)? {
        Head::Failed => arriving(Head::Failed, id),
        Head::Behaviour(number) => descend(model, number, id),
    }
}

/// Puts more frames around a path, which words of a place's code name.
fn under_frames(path: &mut Path, words: &[u32])
    requires { path.old.frames.count + length words.now ≤ 128 }
    ensures { path_of path.new ≡ within (map payload_of words.now) (path_of path.old) }
{
    for word in words {
        path.frames.push(payload(*word));
    }
}

/// The path from a place, given by its code, to one of its slots; none where the slot is vacant.
pub fn path_to(model: &Model, code: &Code, id: usize) -> Option<Path>
    ensures { found result ≡ path_to (term_at model.now.words.items) (span_at model.now.table.items) 65 (place_of (code_words code.now)) id }
{
    let [first, frames @ ..] = code.words() else {
        return None;
    };
    // Kept: no `?` on a path, as in `under`.
    let mut path = from_head(model, *first, id);
    if let Some(inner) = &mut path {
        under_frames(inner, frames);
    }
    path
}
