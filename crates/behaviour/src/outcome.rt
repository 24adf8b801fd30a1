// The code of the place that a branch leads to.
ghost use Rattle.std.specs.Prelude.{◌≡◌, [], length};
ghost use Rattle.std.specs.List.{slice_get};
ghost use Rattle.rules.specs.Places.{running, code_of, head_word};
ghost use Rattle.paths.specs.Paths.{head_of};
ghost use Rattle.words.specs.CodeWords.{word_of};
ghost use Rattle.edges.specs.Edges.{branch_from};
ghost use Rattle.behaviour.specs.Outcomes.{outcome_of, Numbered};

use edges::{Branch, Goal};
use rules::is_beyond;
use words::CodeWord;

/// How many words the code of a branch's outcome has; 0 where it lies beyond.
pub(crate) fn outcome_length(branch: &Branch) -> usize
    ensures { result ≡ length (code_of (outcome_of branch.now)) }
{
    match branch.goal {
        Goal::Done => 1,
        Goal::At(_) => {
            let frames = branch.frames().len();
            if is_beyond(frames) {
                return 0;
            }
            1 + frames
        }
    }
}

/// A word of the code of a branch's outcome.
pub(crate) fn outcome_word(branch: &Branch, item: usize) -> Option<u32>
    requires { Numbered (outcome_of branch.now) }
    ensures { result ≡ slice_get (code_of (outcome_of branch.now)) item }
{
    match branch.goal {
        Goal::Done => (item == 0).then_some(CodeWord::Done.into()),
        Goal::At(head) => {
            let frames = branch.frames();
            if is_beyond(frames.len()) {
                return None;
            }
            if item == 0 {
                return Some(CodeWord::from(head).into());
            }
            let frame = frames.get(item - 1)?;
            Some(CodeWord::Frame(*frame).into())
        }
    }
}
