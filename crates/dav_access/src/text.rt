//! Where a text is split.
ghost use Rattle.std.specs.Prelude.{◌≡◌, ◌≢◌, ◌<◌, ◌++◌, ℕ, List, MatchOption};
ghost use Rattle.dav_access.specs.Texts.{IsSplit};

// What comes before the first such character of a text, and what follows it; `None` where it has
// none.
pub fn split_at_first(text: &str, separator: char) -> Option<(&str, &str)>
    requires { separator < 128 }
    ensures { MatchOption result
        ((before after : List ℕ) → ¬ IsSplit separator text.now before after)
        (λ parts. IsSplit separator text.now parts.0.now parts.1.now) }
{
    text.split_once(separator)
}

// What follows these bytes, where a text begins with them.
pub fn after_front<'t>(text: &'t str, front: &str) -> Option<&'t str>
    ensures { MatchOption result ((rest : List ℕ) → text.now ≢ front.now ++ rest)
        (λ rest. text.now ≡ front.now ++ rest.now) }
{
    text.strip_prefix(front)
}

// What comes before these bytes, where a text ends with them.
pub fn before_back<'t>(text: &'t str, back: &str) -> Option<&'t str>
    ensures { MatchOption result ((front : List ℕ) → text.now ≢ front ++ back.now)
        (λ front. text.now ≡ front.now ++ back.now) }
{
    text.strip_suffix(back)
}
