//! Texts cut at a prefix, or around a mark.

ghost use Rattle.std.specs.Prelude.{◌≡◌, ◌≢◌, ◌<◌, ◌++◌, ◌∷◌, List, ℕ, MatchOption, IfSome, IfNone};
ghost use Rattle.remote_url.specs.Grammar.{Lacks};

/// What follows a prefix.
pub fn behind<'a>(text: &'a str, prefix: &str) -> Option<&'a str>
    ensures { MatchOption result ((rest : List ℕ) → text.now ≢ prefix.now ++ rest) (λ rest. text.now ≡ prefix.now ++ rest.now) }
{
    text.strip_prefix(prefix)
}

/// What stands on both sides of the first mark, an ASCII character.
pub fn around(text: &str, mark: char) -> Option<(&str, &str)>
    requires { mark < 128 }
    ensures parts { IfSome result (λ parts. text.now ≡ parts.0.now ++ (mark ∷ parts.1.now)) }
    ensures before { IfSome result (λ parts. Lacks mark parts.0.now) }
    ensures none { IfNone result (Lacks mark text.now) }
{
    text.split_once(mark)
}
