// The texts that lines are made of: rows of items in brackets, and codes of places.
ghost use Rattle.std.specs.Prelude.{◌≡◌, List, ◌++◌, map, decimal};
ghost use Rattle.std.specs.Iterator.{AlwaysYields, IsFinite, YieldsFirst, item_count};
ghost use Rattle.std.specs.List.{flat_map};
ghost use Rattle.lists.specs.Reading.{pairs_in};
ghost use Rattle.lines.specs.Letters.{term_of, term_text};
ghost use Rattle.lines.specs.Lines.{spaced, bracketed, pair_text, code_text};
ghost use Rattle.lines.specs.Printing.{Puts};

use crate::letters::{code_word, term};
use crate::line::{Line, Spell};
use words::Refusal;

impl Spell for u32 {
    ghost text = { decimal };

    fn spell(&self, line: &mut Line<'_>) -> Result<(), Refusal> {
        line.put_number(*self)
    }
}

/// A variable and an expression.
impl Spell for (u32, u32) {
    ghost text = { pair_text };

    fn spell(&self, line: &mut Line<'_>) -> Result<(), Refusal> {
        let (variable, expression) = *self;
        line.put_number(variable)?;
        line.put(b"=")?;
        line.put_number(expression)
    }
}

/// The pairs that a row of words tells: variable, expression, variable, expression, and so on.
#[derive(Drop)]
struct Pairs<'a>(&'a [u32]);

impl Iterator for Pairs<'_> {
    type Item = (u32, u32);

    ghost next_gives = { YieldsFirst (λ s. pairs_in s.0.now) };

    ghost remaining = { item_count (λ s. pairs_in s.0.now) };

    fn next(&mut self) -> Option<(u32, u32)> {
        let [variable, expression, rest @ ..] = self.0 else {
            return None;
        };
        self.0 = rest;
        Some((*variable, *expression))
    }
}

/// Puts items, each behind the same bytes.
fn put_each<I: Iterator + Drop>(line: &mut Line<'_>, before: &[u8], items: I) -> Result<(), Refusal>
where
    I::Item: Spell + Drop,
    requires can { I.can_next items }
    requires ends { IsFinite (I.remaining items) }
    ensures { (xs : List I.Item) → AlwaysYields I.next_gives (λ x. x) items xs
        → Puts line.old (flat_map (λ x. before.now ++ I.Item.text x) xs) result line.new }
{
    for item in items {
        line.put(before)?;
        item.spell(line)?;
    }
    Ok(())
}

/// Puts items, parted by spaces.
fn put_spaced<I: Iterator + Drop>(line: &mut Line<'_>, mut items: I) -> Result<(), Refusal>
where
    I::Item: Spell + Drop,
    requires can { I.can_next items }
    requires ends { IsFinite (I.remaining items) }
    ensures { (xs : List I.Item) → AlwaysYields I.next_gives (λ x. x) items xs
        → Puts line.old (spaced I.Item.text xs) result line.new }
{
    let Some(first) = items.next() else {
        return Ok(());
    };
    first.spell(line)?;
    put_each(line, b" ", items)
}

/// Puts items in brackets, parted by spaces.
fn put_row<I: Iterator + Drop>(line: &mut Line<'_>, items: I) -> Result<(), Refusal>
where
    I::Item: Spell + Drop,
    requires can { I.can_next items }
    requires ends { IsFinite (I.remaining items) }
    ensures { (xs : List I.Item) → AlwaysYields I.next_gives (λ x. x) items xs
        → Puts line.old (bracketed (spaced I.Item.text xs)) result line.new }
{
    line.put(b"[")?;
    put_spaced(line, items)?;
    line.put(b"]")
}

/// Puts the conditions of a guard.
pub(crate) fn put_guard(line: &mut Line<'_>, guard: &[u32]) -> Result<(), Refusal>
    ensures { Puts line.old (bracketed (spaced decimal guard.now)) result line.new }
{
    put_row(line, guard.iter().copied())
}

/// Puts the words of a deadline.
pub(crate) fn put_deadline(line: &mut Line<'_>, deadline: &[u32]) -> Result<(), Refusal>
    ensures { Puts line.old (bracketed (spaced term_text (map term_of deadline.now))) result line.new }
{
    put_row(line, deadline.iter().map(|word| term(*word)))
}

/// Puts pairs of a variable and an expression.
pub(crate) fn put_pairs(line: &mut Line<'_>, pairs: &[u32]) -> Result<(), Refusal>
    ensures { Puts line.old (bracketed (spaced pair_text (pairs_in pairs.now))) result line.new }
{
    put_row(line, Pairs(pairs))
}

/// Puts the code of a place; what lies beyond has none.
pub(crate) fn put_code(line: &mut Line<'_>, code: &[u32]) -> Result<(), Refusal>
    ensures { Puts line.old (code_text code.now) result line.new }
{
    if code.is_empty() {
        return line.put(b"~");
    }
    put_each(line, b"", code.iter().map(|word| code_word(*word)))
}
