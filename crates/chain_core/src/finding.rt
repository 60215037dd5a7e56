//! Compares texts with paths of names.

ghost use Rattle.std.specs.Prelude.{◌≡◌, ◌≢◌, ◌++◌, ℕ, List, Decides, MatchOption};
ghost use Rattle.chain_core.specs.Things.{dotted, path_text};

use crate::thing::Path;

/// Returns what follows a front of a text, or `None` if the text does not begin with it.
pub fn after_front<'t>(text: &'t [u8], front: &[u8]) -> Option<&'t [u8]>
    ensures { MatchOption result ((rest : List ℕ) → text.now ≢ front.now ++ rest)
        (λ rest. text.now ≡ front.now ++ rest.now) }
{
    text.strip_prefix(front)
}

/// Returns whether a text is two names with a dot between.
fn is_dotted(text: &[u8], outer: &[u8], inner: &[u8]) -> bool
    ensures { Decides result (text.now ≡ dotted outer.now inner.now) }
{
    let Some(rest) = after_front(text, outer) else {
        return false;
    };
    match after_front(rest, b".") {
        Some(rest) => rest == inner,
        None => false,
    }
}

/// Returns whether a text is a path.
pub(crate) fn is_path(path: &Path, text: &[u8]) -> bool
    ensures { Decides result (text.now ≡ path_text path.now) }
{
    match path {
        Path::Empty => text.is_empty(),
        Path::One(name) => text == name.as_bytes(),
        Path::Two(outer, inner) => is_dotted(text, outer.as_str().as_bytes(), inner.as_bytes()),
    }
}
