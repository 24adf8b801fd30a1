// The kinds of records.
ghost use Rattle.std.specs.Prelude.{◌≡◌};
ghost use Rattle.std.specs.Result.{result_ok};
ghost use Rattle.sheet.specs.Kinds.{kind_named};

use crate::reader::Record;
use words::kind;

/// What a record is.
#[derive(Clone, Copy, PartialEq, Eq, Debug)]
pub enum Kind {
    Stop,
    Act,
    Branch,
    Assignment,
    Break,
    Throw,
    Alt,
    Seq,
    Loop,
    Try,
    Catch,
    When,
    Urgent,
    Call,
}

/// The answer to a head that no kind of record has.
#[derive(Clone, Copy, PartialEq, Eq, Debug)]
pub struct NoKind;

/// The kind that a head has.
// Kept: the one place where heads' numbers become kinds.
impl TryFrom<u32> for Kind {
    type Error = NoKind;

    ghost try_from_gives = { λ head kind. result_ok kind ≡ kind_named head };

    #[tactic(auto, unfolding(crate::specs::Kinds::kind_named))]
    fn try_from(head: u32) -> Result<Kind, NoKind> {
        match kind(head) {
            0 => Ok(Kind::Stop),
            1 => Ok(Kind::Act),
            2 => Ok(Kind::Branch),
            3 => Ok(Kind::Assignment),
            4 => Ok(Kind::Break),
            5 => Ok(Kind::Throw),
            6 => Ok(Kind::Alt),
            7 => Ok(Kind::Seq),
            8 => Ok(Kind::Loop),
            9 => Ok(Kind::Try),
            10 => Ok(Kind::Catch),
            11 => Ok(Kind::When),
            12 => Ok(Kind::Urgent),
            13 => Ok(Kind::Call),
            _ => Err(NoKind),
        }
    }
}

impl Record {
    /// The kind of a record, which its head has; none where no record has such a head.
    pub fn kind(self) -> Option<Kind>
        ensures { result ≡ kind_named self.head }
    {
        Kind::try_from(self.head).ok()
    }
}
