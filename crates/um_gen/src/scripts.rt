//! The scripts.

ghost use Rattle.std.specs.Prelude.{◌≡◌, ◌+◌, ◌*◌, ◌≤◌, ◌<◌, vec_len, vec_capacity};
ghost use Rattle.um_gen.specs.Description as description;
ghost use Rattle.um_gen.specs.Pieces.{Writes, each};

use crate::parts::Part::{self, Drawn, Number, Offset, Words};
use crate::writer::Writer;

/// The drawn lines of a script.
const LINES: u32 = 30;

const TAKE: [Part; 3] = [Words("k_sem_take @s"), Drawn(4), Words(" K_NO_WAIT")];

const GIVE: [Part; 2] = [Words("k_sem_give @s"), Drawn(4)];

const STORE: [Part; 6] = [
    Words("store @k"),
    Number,
    Words("+"),
    Offset,
    Words(" 4 "),
    Drawn(65_536),
];

const LOAD: [Part; 5] = [Words("load r0 @k"), Number, Words("+"), Offset, Words(" 4")];

const SEND: [Part; 5] = [
    Words("k_msgq_put @q"),
    Drawn(2),
    Words(" @k"),
    Number,
    Words(" K_NO_WAIT"),
];

const RECEIVE: [Part; 5] = [
    Words("k_msgq_get @q"),
    Drawn(2),
    Words(" @k"),
    Number,
    Words(" K_NO_WAIT"),
];

impl Writer {
    /// The scripts of all threads.
    pub fn put_scripts(&mut self)
        requires { vec_len self.old.text + 1700 * 8 ≤ vec_capacity self.old.text }
        ensures { Writes self.old self.new (each description.script 8) (1700 * 8) }
    {
        for i in 0..8 {
            self.put_script(i);
        }
    }

    fn put_script(&mut self, i: u32)
        requires { vec_len self.old.text + 1700 ≤ vec_capacity self.old.text }
        ensures { Writes self.old self.new (description.script i) 1700 }
    {
        self.put("[[script]]\nname = \"c");
        self.put_number(i);
        self.put("\"\nlines = [\n");
        self.put(
            "\"k_object_alloc sem r1\",\n\"k_sem_init r1 1 1\",\n\"k_object_release r1\",\n\"repeat 20\",\n",
        );
        self.put_lines(i);
        self.put("\"end\",\n]\n");
    }

    /// The drawn lines of a script.
    fn put_lines(&mut self, i: u32)
        requires { vec_len self.old.text + 50 * 30 ≤ vec_capacity self.old.text }
        ensures { Writes self.old self.new (each (λ line. description.drawn_line i) 30) (50 * 30) }
    {
        for _ in 0..LINES {
            self.put("\"");
            self.put_call(i);
            self.put("\",\n");
        }
    }

    /// The call that the next draw chooses.
    fn put_call(&mut self, i: u32)
        requires { vec_len self.old.text + 46 ≤ vec_capacity self.old.text }
        ensures { Writes self.old self.new (description.drawn_call i) 46 }
    {
        match self.draw(6) {
            0 => self.put_parts(&TAKE, i),
            1 => self.put_parts(&GIVE, i),
            2 => self.put_parts(&STORE, i),
            3 => self.put_parts(&LOAD, i),
            4 => self.put_parts(&SEND, i),
            _ => self.put_parts(&RECEIVE, i),
        }
    }
}
