//! Names of a description.

ghost use Rattle.std.specs.Prelude.{◌≡◌, ◌<◌, ◌≤◌, [], ◌∷◌, ◌++◌, length};

use std::marker::Model;

/// A name: at most 24 bytes. A lawful one has 1 to 24 letters, digits or `_`, and begins with a letter.
#[derive(Clone, Copy, PartialEq, Eq)]
pub struct Name {
    items: [u8; 24],
    len: u8,
}

impl Model for Name {
    ghost use Rattle.std.{specs.Prelude.{List, length, take, ℕ}, proofs.Common.{ap}};
    ghost use Rattle.um_base.specs.Room.{IsRoom, filled, room-front};

    ghost Value = { List ℕ };

    ghost view = { λ n. take n.len n.items };

    ghost invariant = { λ n. IsRoom 24 0 n.items n.len };

    ghost inverse = { λ l. record { items = filled 24 0 l; len = length l } };

    ghost inverse_ok = { λ a h. ap (λ (n : List ℕ × ℕ). record { items = n.0; len = n.1 }) (room-front h) };
}

impl Name {
    /// The empty name.
    pub fn new() -> Name
        ensures { result ≡ [] }
    {
        Name {
            items: [0; 24],
            len: 0,
        }
    }

    /// How many bytes.
    pub fn len(&self) -> usize
        ensures value { result ≡ length self.now }
        ensures few { result ≤ 24 }
    {
        self.len as usize
    }

    /// The bytes.
    pub fn as_slice(&self) -> &[u8]
        ensures value { result.now ≡ self.now }
        ensures few { length result.now ≤ 24 }
    {
        &self.items[..self.len as usize]
    }

    /// One more byte at the end.
    pub fn push(&mut self, byte: u8)
        requires { length self.old < 24 }
        ensures { self.new ≡ self.old ++ byte ∷ [] }
    {
        self.items[self.len as usize] = byte;
        self.len += 1;
    }

    /// The name of these bytes.
    pub fn from_bytes(bytes: &[u8]) -> Name
        requires { length bytes.now ≤ 24 }
        ensures { result ≡ bytes.now }
    {
        let mut name = Name::new();
        for byte in bytes {
            name.push(*byte);
        }
        name
    }
}

#[cfg(test)]
mod tests {
    use super::*;

    #[test]
    fn keeps_its_bytes(rt: HostRuntime) {
        let mut name = Name::from_bytes(b"stack_");
        name.push(b'0');
        assert_eq!(rt; name.as_slice(), b"stack_0".as_slice());
        assert_eq!(rt; name.len(), 7);
        assert!(rt; name == Name::from_bytes(b"stack_0"));
        assert!(rt; name != Name::from_bytes(b"stack_"));
        assert_eq!(rt; Name::new().len(), 0);
        let longest = Name::from_bytes(b"abcdefghijklmnopqrstuvwx");
        assert_eq!(rt; longest.as_slice(), b"abcdefghijklmnopqrstuvwx".as_slice());
    }
}
