//! What a partition lets threads do.

ghost use Rattle.std.specs.Prelude.{⊤, ◌≡◌, [], ◌∷◌, codes};

use bitflags::{Flag, Flags, bitflag_items};

/// The rights to a partition: from the lowest bit on, read, write and execute for supervisors, and then the same for users.
/// The names are those of Zephyr's partition attributes (Memory Protection Design).
#[derive(Clone, Copy, PartialEq, Eq)]
pub struct Attr(pub u8);

bitflag_items! {
    impl Attr: u8 {
        const P_RW_U_RW = 27;
        const P_RW_U_RO = 11;
        const P_RW_U_NA = 3;
        const P_RO_U_RO = 9;
        const P_RO_U_NA = 1;
        const P_RX_U_RX = 45;
        const P_RWX_U_RWX = 63;
    }
}

impl Flags for Attr {
    type Bits = u8;

    ghost exact = { ⊤ };

    ghost table = { (codes "P_RW_U_RW", 27) ∷ (codes "P_RW_U_RO", 11) ∷ (codes "P_RW_U_NA", 3) ∷ (codes "P_RO_U_RO", 9) ∷ (codes "P_RO_U_NA", 1)
        ∷ (codes "P_RX_U_RX", 45) ∷ (codes "P_RWX_U_RWX", 63) ∷ [] };

    ghost set_of = { λ p. p.0 };

    fn flags<'a>() -> &'a [Flag<Attr>] {
        Attr::FLAGS
    }

    fn bits(&self) -> u8 {
        self.0
    }

    fn from_bits_retain(bits: u8) -> Attr {
        Attr(bits)
    }
}

#[cfg(test)]
mod tests {
    use super::*;

    /// Zephyr's names, with the rights of supervisors (read 1, write 2, execute 4) and of users (8, 16, 32).
    #[test]
    fn has_its_names(rt: HostRuntime) {
        for (name, bits) in [
            ("P_RW_U_RW", Some(1 + 2 + 8 + 16)),
            ("P_RW_U_RO", Some(1 + 2 + 8)),
            ("P_RW_U_NA", Some(1 + 2)),
            ("P_RO_U_RO", Some(1 + 8)),
            ("P_RO_U_NA", Some(1)),
            ("P_RX_U_RX", Some(1 + 4 + 8 + 32)),
            ("P_RWX_U_RWX", Some(1 + 2 + 4 + 8 + 16 + 32)),
            ("P_RO_U_RW", None),
            ("p_rw_u_rw", None),
            ("", None),
        ] {
            let found = Attr::from_name(name).map(|attr| attr.0);
            assert_eq!(rt; found, bits, "at {name}");
        }
    }
}
