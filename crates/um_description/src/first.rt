//! The first of what is found at the entries of a list.

ghost use Rattle.std.specs.Prelude.{◌≡◌, ◌<◌, ℕ, List, Option, length};
ghost use Rattle.um_document.specs.First.{first_of};
ghost use Rattle.um_description.specs.Names.{each};

/// The first of what is found at some entries, each with its number counted from 0: where each call finds the first of
/// a list, it is the first of all these lists, one behind the other.
pub fn first_found<T, B, F: Fn(usize, &T) -> Option<B>>(entries: &[T], find: F) -> Option<B>
    requires { (i : ℕ) (entry : _) → i < length entries.now → F.pre find i entry }
    ensures { (f : ℕ → T → List B) → ((i : ℕ) (entry : _) (found : Option B) → F.post find i entry found → found ≡ first_of (f i entry.now)) → result ≡ first_of (each f 0 entries.now) }
{
    for (i, entry) in entries.iter().enumerate() {
        if let Some(found) = find(i, entry) {
            return Some(found);
        }
    }
    None
}
