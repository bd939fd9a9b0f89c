//! What stands before the boot entries: the header, and the objects.

ghost use Rattle.std.specs.Prelude.{◌≡◌, ◌+◌, ◌≤◌, vec_len, vec_capacity};
ghost use Rattle.um_gen.specs.Description as description;
ghost use Rattle.um_gen.specs.Pieces.{Writes};

use crate::parts::Part::{self, Number, Words};
use crate::writer::Writer;

/// A thread and its stack.
const THREAD: [Part; 6] = [
    Words("{name = \"t"),
    Number,
    Words("\", kind = \"thread\"},\n"),
    Words("{name = \"k"),
    Number,
    Words("\", kind = \"thread_stack\", size = 128},\n"),
];

const SEMAPHORE: [Part; 3] = [
    Words("{name = \"s"),
    Number,
    Words("\", kind = \"sem\", count = 1, limit = 4},\n"),
];

const QUEUE: [Part; 3] = [
    Words("{name = \"q"),
    Number,
    Words("\", kind = \"msgq\", msg_size = 4, max_msgs = 4},\n"),
];

impl Writer {
    /// The protection unit, the pool, the partitions and the domains.
    pub fn put_head(&mut self)
        requires { vec_len self.old.text + 300 ≤ vec_capacity self.old.text }
        ensures { Writes self.old self.new description.head 300 }
    {
        self.put("version = 1\nmpu = \"pmsav7\"\nregions = 8\noops = \"abort\"\n");
        self.put("pool = [{name = \"heap\", size = 4096}]\n");
        self.put(
            "partition = [{name = \"p0\", size = 256, attr = \"P_RW_U_RW\"}, {name = \"p1\", size = 256, attr = \"P_RW_U_RO\"}]\n",
        );
        self.put(
            "domain = [{name = \"d0\", partitions = [\"p0\", \"p1\"]}, {name = \"d1\", partitions = [\"p1\"]}]\n",
        );
    }

    /// All objects.
    pub fn put_objects(&mut self)
        requires { vec_len self.old.text + 1500 ≤ vec_capacity self.old.text }
        ensures { Writes self.old self.new description.objects 1500 }
    {
        self.put("object = [\n");
        self.put_each(&THREAD, 8);
        self.put_each(&SEMAPHORE, 4);
        self.put_each(&QUEUE, 2);
        self.put("]\n");
    }
}
