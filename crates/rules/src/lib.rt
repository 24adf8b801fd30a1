// The inference rules of behaviours, and what is proved of them.
//
// The rules stand in specs/Passing.antt and specs/Rules.antt as relations, one constructor for each rule;
// specs/Promise.antt says how the edges that are listed, and looked up, agree with them.
#![tactic(auto)]

ghost use Rattle.std.specs.Prelude.{◌≡◌, ℕ, List, [], length, Decides};
ghost use Rattle.rules.specs.Places.{Head, running, most_frames, beyond, code_of};
ghost use Rattle.rules.specs.Promise.{EdgesAreDerivations, RisingIsStrict, TurnsNameDerivations};
ghost use Rattle.rules.specs.Promise.{FramesPassAtOnce, SlotsHoldTheEdges, CodesNamePlaces};

/// The most frames that the code of a place has room for.
const MOST_FRAMES: usize = 64;

/// The most frames that the code of a place has room for.
///
/// The clauses after the first are the theorems of this crate. They stand on a contract so that the check asks for
/// them: the listed edges of a place are its derivations, each once; turns name a derivation; frames can be passed at
/// once; the slots of a place hold its edges; codes name places.
pub fn most_frames() -> usize
    ensures value { result ≡ most_frames }
    ensures derivations { EdgesAreDerivations }
    ensures once { RisingIsStrict }
    ensures names { TurnsNameDerivations }
    ensures frames { FramesPassAtOnce }
    ensures slots { SlotsHoldTheEdges }
    ensures codes { CodesNamePlaces }
{
    MOST_FRAMES
}

/// Whether an outcome under so many frames is beyond; its code is then empty, and only then.
pub fn is_beyond(frames: usize) -> bool
    ensures value { result ≡ beyond frames }
    ensures empty { (head : Head) (fs : List ℕ) → length fs ≡ frames → Decides result (code_of (running head fs) ≡ []) }
{
    frames > MOST_FRAMES
}
