// Which words are the code of a place.
ghost use Rattle.std.specs.Prelude.{◌≡◌};
ghost use Rattle.paths.specs.Places.{is_behaviour, is_frame_step, behaviour_at, frame_at, is_head_word, is_frame_word, are_frame_words, is_running, is_place};

use model::Model;
use rules::most_frames;
use sheet::Step;
use words::CodeWord;

fn is_behaviour_step(step: Step) -> bool
    ensures { result ≡ is_behaviour step }
{
    !matches!(step, Step::Link)
}

fn is_frame_step(step: Step) -> bool
    ensures { result ≡ is_frame_step step }
{
    matches!(step, Step::Seq(_, _) | Step::Loop(_) | Step::Try(_, _))
}

/// Whether a record is a behaviour of the sheet.
#[tactic(auto, unfolding(paths::specs::Places::behaviour_at))]
fn is_behaviour(model: &Model, number: u32) -> bool
    ensures { result ≡ behaviour_at model.now.words.items number }
{
    let reader = model.reader();
    number < reader.records() && is_behaviour_step(reader.step(number))
}

/// Whether a record is a frame.
#[tactic(auto, unfolding(paths::specs::Places::frame_at))]
fn is_frame(model: &Model, number: u32) -> bool
    ensures { result ≡ frame_at model.now.words.items number }
{
    is_frame_step(model.reader().step(number))
}

fn is_head_word(model: &Model, word: u32) -> bool
    ensures { result ≡ is_head_word model.now.words.items word }
{
    match CodeWord::try_from(word) {
        Ok(CodeWord::Failed) => true,
        Ok(CodeWord::Record(number)) => is_behaviour(model, number),
        Ok(CodeWord::Done | CodeWord::Frame(_) | CodeWord::Pair(_)) | Err(_) => false,
    }
}

fn is_frame_word(model: &Model, word: u32) -> bool
    ensures { result ≡ is_frame_word model.now.words.items word }
{
    match CodeWord::try_from(word) {
        Ok(CodeWord::Frame(number)) => is_frame(model, number),
        Ok(CodeWord::Done | CodeWord::Failed | CodeWord::Record(_) | CodeWord::Pair(_)) | Err(_) =>
            false,
    }
}

fn are_frame_words(model: &Model, words: &[u32]) -> bool
    ensures { result ≡ are_frame_words model.now.words.items words.now }
{
    words.iter().all(|word| is_frame_word(model, *word))
}

/// Whether a head word and frame words are the code of a place.
fn is_running(model: &Model, head: u32, frames: &[u32]) -> bool
    ensures { result ≡ is_running model.now.words.items head frames.now }
{
    is_head_word(model, head) && frames.len() <= most_frames() && are_frame_words(model, frames)
}

/// Whether words are the code of a place of a model's behaviour.
pub fn is_place_in(model: &Model, code: &[u32]) -> bool
    ensures { result ≡ is_place model.now.words.items code.now }
{
    let [head, frames @ ..] = code else {
        return false;
    };
    match CodeWord::try_from(*head) {
        Ok(CodeWord::Done) => frames.is_empty(),
        _ => is_running(model, *head, frames),
    }
}
