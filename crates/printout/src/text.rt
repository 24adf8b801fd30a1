// What is printed of a part: its listing's lines, or the line of a refusal.
ghost use Rattle.std.specs.Prelude.{◌≡◌, IfOk};
ghost use Rattle.lists.specs.Reading.{edges_in};
ghost use Rattle.printout.specs.Failures.{Explains, Shown};
ghost use Rattle.printout.specs.Texts.{refused_line, list_text, text_of};

use crate::failure::Failure;
use crate::put_list;
use lists::{List, list};
use part::Part;
use std::alloc::{AllocError, Global};
use words::Refusal;

/// How many bytes a line may have.
const LINE_ROOM: usize = 65_536;

/// The line of a refusal.
pub fn refused_line(heap: Global, refusal: Refusal, place: usize) -> Result<Vec<u8>, AllocError>
    ensures { IfOk result (λ v. v.items ≡ refused_line refusal place) }
{
    let number = refusal.number();
    let text = format!(in heap; "refused {number} at {place}\n")?;
    Ok(text.into_bytes())
}

/// Why there is no other text, as a line; want of memory has none.
pub fn explain(heap: Global, why: Failure) -> Result<Vec<u8>, AllocError>
    ensures { IfOk result (λ v. Explains why v.items) }
{
    match why {
        Failure::Faulty(fault) => refused_line(heap, fault.refusal, fault.place),
        Failure::NoMemory => Err(AllocError),
    }
}

/// The lines of an ended list.
fn list_text(heap: Global, list: List<'_>) -> Result<Vec<u8>, Failure>
    ensures { Shown (λ v. v.items) (list_text (edges_in list.entry.words.now)) result }
{
    let mut text = Vec::new(heap);
    let mut line = vec![in heap; 0; LINE_ROOM]?;
    put_list(&mut text, list, &mut line)?;
    Ok(text)
}

/// The lines of a part's listing.
fn listing_text<P: Part>(heap: Global, part: &P, room: usize) -> Result<Vec<u8>, Failure>
    ensures { Shown (λ v. v.items) (text_of (P.Part.meaning part.now) room) result }
{
    let mut words = vec![in heap; 0; room]?;
    let counts = list(part, &mut words)?;
    list_text(heap, counts.read(&words))
}

/// What is printed of a part where it stands, if its list may take so many words.
pub fn part_text<P: Part>(heap: Global, part: &P, room: usize) -> Result<Vec<u8>, AllocError>
    ensures { IfOk result (λ v. v.items ≡ text_of (P.Part.meaning part.now) room) }
{
    listing_text(heap, part, room).or_else(|why| explain(heap, why))
}

#[cfg(test)]
mod tests {
    use super::*;
    use std::test::Fail;
    use words::Fault;

    #[test]
    fn a_fault_is_told_by_its_number_and_place(rt: HostRuntime) -> Result<(), Fail> {
        let fault = Fault {
            refusal: Refusal::Recursion,
            place: 7,
        };
        let text = explain(rt.alloc(), Failure::Faulty(fault))?;
        assert_eq!(rt; text.as_slice(), b"refused 18 at 7\n".as_slice());
        Ok(())
    }
}
