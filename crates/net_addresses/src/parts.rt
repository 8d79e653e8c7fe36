//! The parts of a text round a character.

ghost use Rattle.std.specs.Prelude.{◌≡◌, ◌<◌, ◌∷◌, ◌++◌, ◌≢◌, MatchOption};
ghost use Rattle.net_addresses.specs.Readings.{Lacks};

/// The parts of a text before and behind the first place of an ASCII character.
pub(crate) fn parts_round(text: &str, mark: char) -> Option<(&str, &str)>
    requires { mark < 128 }
    ensures { MatchOption result (Lacks mark text.now)
        (λ parts. (text.now ≡ parts.0.now ++ (mark ∷ parts.1.now)) × Lacks mark parts.0.now) }
{
    text.split_once(mark)
}

/// What stands behind an ASCII character at the front of a text.
pub(crate) fn part_behind(text: &str, mark: char) -> Option<&str>
    requires { mark < 128 }
    ensures { MatchOption result ((rest : _) → text.now ≢ mark ∷ rest) (λ rest. text.now ≡ mark ∷ rest.now) }
{
    text.strip_prefix(mark)
}
