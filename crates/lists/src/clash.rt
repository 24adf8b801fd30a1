// Whether the assignments of a branch clash: one variable, two different expressions.
ghost use Rattle.std.specs.Prelude.{◌≡◌, ℕ, List};
ghost use Rattle.lists.specs.Format.{clashes_with, clashing, pair_words};

/// Looks for a clash among pairs of a variable and an expression.
pub(crate) fn clash(pairs: &[u32]) -> bool
    ensures { (ps : List (ℕ × ℕ)) → pairs.now ≡ pair_words ps → result ≡ clashing ps }
{
    // Kept: no plainer as arrays of two, since the words behind a pair are what is searched next.
    let mut left = pairs;
    while let [variable, expression, rest @ ..] = left {
        if differs(*variable, *expression, rest) {
            return true;
        }
        left = rest;
    }
    false
}

/// Looks for another expression of a variable.
fn differs(variable: u32, expression: u32, pairs: &[u32]) -> bool
    ensures { (ps : List (ℕ × ℕ)) → pairs.now ≡ pair_words ps → result ≡ clashes_with (variable, expression) ps }
{
    // Kept: no plainer as arrays of two: the pattern names both words, and no index is counted.
    let mut left = pairs;
    while let [other, another, rest @ ..] = left {
        if *other == variable && *another != expression {
            return true;
        }
        left = rest;
    }
    false
}
