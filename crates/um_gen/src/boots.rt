//! The boot entries.

ghost use Rattle.std.specs.Prelude.{◌≡◌, ◌+◌, ◌*◌, ◌≤◌, ◌==◌, ◌&&◌, All, length, map, vec_len, vec_capacity};
ghost use Rattle.um_gen.specs.Description as description;
ghost use Rattle.um_gen.specs.{Draws.{draw}, Kept.{name_text}, Pieces.{Writes}};

use crate::parts::Part::{self, Drawn, Grants, Number, Words};
use crate::writer::Writer;

/// What a thread may be granted.
const GRANTABLE: [&str; 6] = ["\"s0\"", "\"s1\"", "\"s2\"", "\"s3\"", "\"q0\"", "\"q1\""];

/// A thread's boot entry.
pub const BOOT: [Part; 13] = [
    Words("[[boot]]\nthread = \"t"),
    Number,
    Words("\"\nstack = \"k"),
    Number,
    Words("\"\nscript = \"c"),
    Number,
    Words("\"\npriority = "),
    Number,
    Words("\ndomain = \"d"),
    Drawn(2),
    Words("\"\npool = \"heap\"\ngrants = ["),
    Grants,
    Words("]\n"),
];

impl Writer {
    /// The names that a thread is granted.
    #[tactic(auto, unfolding(crate::specs::Description::grants))]
    pub fn put_grants(&mut self)
        requires { vec_len self.old.text + 36 ≤ vec_capacity self.old.text }
        ensures { Writes self.old self.new description.grants 36 }
    {
        self.put_kept(&GRANTABLE);
    }

    /// Those of the names that are kept, with a comma between each two.
    fn put_kept(&mut self, names: &[&str])
        requires short { All (λ name. length name.now ≤ 4) names.now }
        requires room { vec_len self.old.text + 6 * length names.now ≤ vec_capacity self.old.text }
        ensures { Writes self.old self.new (description.kept_text (map (λ name. name.now) names.now)) (6 * length names.now) }
    {
        let mut is_first = true;
        for name in names {
            is_first = self.put_name(name, is_first);
        }
    }

    /// A name, where it is kept. The result says whether the next one would still be the first.
    #[tactic(auto, unfolding(crate::specs::Kept::name_text))]
    fn put_name(&mut self, name: &str, is_first: bool) -> bool
        requires short { length name.now ≤ 4 }
        requires room { vec_len self.old.text + 6 ≤ vec_capacity self.old.text }
        ensures text { Writes self.old self.new (name_text is_first name.now) 6 }
        ensures first { result ≡ (is_first && (draw 8 self.old.random == 0)) }
    {
        if self.draw(8) == 0 {
            return is_first;
        }
        if !is_first {
            self.put(", ");
        }
        self.put(name);
        false
    }
}
