//! Which words name a type of a chain.

ghost use Rattle.std.specs.Prelude.{◌≡◌, nat_eq};
ghost use Rattle.std.specs.List.{list_any, starts_with};
ghost use Rattle.command_line.specs.Name.{is_name, name_fronts};

/// The words that are names by themselves.
const WHOLE_NAMES: [&str; 4] = ["extrinsic", "call", "event", "error"];

/// The beginnings of all other names.
const NAME_FRONTS: [&str; 9] = [
    "storage:",
    "key:",
    "constant:",
    "calls:",
    "events:",
    "errors:",
    "result:",
    "params:",
    "custom:",
];

fn has_front(word: &str, front: &str) -> bool
    ensures { result ≡ starts_with nat_eq word.now front.now }
{
    word.as_bytes().starts_with(front.as_bytes())
}

fn has_name_front(word: &str) -> bool
    ensures { result ≡ list_any (starts_with nat_eq word.now) name_fronts }
{
    NAME_FRONTS.iter().any(|front| has_front(word, front))
}

/// Returns whether a word of the command line names a type, rather than gives its position.
pub fn is_name(word: &str) -> bool
    ensures { result ≡ is_name word.now }
{
    WHOLE_NAMES.contains(&word) || has_name_front(word)
}
