//! Which threads hold an object.

ghost use Rattle.std.specs.Prelude.{◌≡◌, ◌<◌};
ghost use Rattle.um_base.specs.declared.limits.TheConstants.{ROWS, THREADS};
ghost use Rattle.um_machine.specs.Objects.{thread_holds};

use crate::rows::own_row;
use um_base::Image;
use um_machine::Thread;

/// Whether a thread holds an object: its call has checked it, or it is its own.
#[inline]
pub fn holds(image: &Image, x: usize, t: usize, thread: &Thread) -> bool
    requires thread { t < THREADS }
    requires row { x < ROWS }
    ensures { result ≡ thread_holds image.now x t thread.now }
{
    thread.checked[x] || (thread.keeps_own && own_row(image, t) == x)
}
