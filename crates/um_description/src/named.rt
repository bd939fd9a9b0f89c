//! What a text names, among entries that a call gives the names of.

ghost use Rattle.std.specs.Prelude.{◌≡◌, ◌<◌, IfSome, List, ℕ, bytes_eq, length, map, unwrap_or};
ghost use Rattle.um_description.specs.Names.{is_among, named};

use um_base::Name;

/// Whether a name is this text.
pub fn is_named(name: &Name, text: &[u8]) -> bool
    ensures { result ≡ bytes_eq text.now name.now }
{
    name.as_slice() == text
}

/// The number of the entry with this name.
pub fn number_of<T, F: Fn(&T) -> Name>(entries: &[T], name_of: F, text: &[u8]) -> Option<usize>
    requires { F.IsAlwaysCallable name_of }
    ensures value { (f : T → List ℕ) → ((entry : _) (name : _) → F.post name_of entry name → name ≡ f entry.now) → result ≡ named (map f entries.now) text.now }
    ensures inside { IfSome result (λ i. i < length entries.now) }
{
    for (i, entry) in entries.iter().enumerate() {
        if is_named(&name_of(entry), text) {
            return Some(i);
        }
    }
    None
}

/// Whether an entry has this name.
pub fn has_name<T, F: Fn(&T) -> Name>(entries: &[T], name_of: F, text: &[u8]) -> bool
    requires { F.IsAlwaysCallable name_of }
    ensures { (f : T → List ℕ) → ((entry : _) (name : _) → F.post name_of entry name → name ≡ f entry.now) → result ≡ is_among text.now (map f entries.now) }
{
    number_of(entries, name_of, text).is_some()
}

/// The number that was found for a name, or 0.
pub fn number(found: Option<usize>) -> u8
    requires { IfSome found (λ i. i < 256) }
    ensures { result ≡ unwrap_or found 0 }
{
    match found {
        Some(i) => i as u8,
        None => 0,
    }
}
