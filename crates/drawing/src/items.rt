// The items of a list.
ghost use Rattle.std.specs.Prelude.{◌≡◌};
ghost use Rattle.std.specs.List.{slice_get};
ghost use Rattle.words.specs.declared.Refusal.TheVariants.{NoItem};
ghost use Rattle.part.specs.Questions.{found};

use words::Refusal;

/// An item of a list.
pub(crate) fn item_of(list: &[u32], item: usize) -> Result<u32, Refusal>
    ensures { result ≡ found NoItem (slice_get list.now item) }
{
    list.get(item).copied().ok_or(Refusal::NoItem)
}
