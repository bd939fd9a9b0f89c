//! Which rows a dump shows, and the threads whose objects stand there.

ghost use Rattle.std.specs.Prelude.{◌≡◌, ◌<◌, not};
ghost use Rattle.um_base.specs.Places.{thread_of_row, setup_thread, setup_at};
ghost use Rattle.um_trace.specs.Dump.{is_shown};

use um_base::{Image, ROWS, STATIC_ROWS, STATIC_THREADS, Setup, THREADS};
use um_machine::Status;
use um_steps::Dumped;

/// Whether a row is shown: one of a static object, or a dynamic one that isn't free.
#[tactic(auto, unfolding(crate::specs::Dump::is_shown))]
pub fn is_shown<D: Dumped>(image: &Image, last: &D, row: usize) -> bool
    requires { row < ROWS }
    ensures { result ≡ is_shown image.now (D.state last.now) row }
{
    row < image.objects.len() || last.status(row) != Status::Free
}

/// The thread index that a row's setup gives.
fn setup_thread(image: &Image, row: usize) -> Option<u8>
    ensures { result ≡ setup_thread (setup_at image.now row) }
{
    match image.objects.as_slice().get(row) {
        Some(object) => match object.setup {
            Setup::Thread { index } => Some(index.0),
            _ => None,
        },
        None => None,
    }
}

/// The thread index of a row, where a thread object stands there.
pub fn thread_of_row(image: &Image, row: usize) -> Option<u8>
    requires { row < ROWS }
    ensures { result ≡ thread_of_row image.now row }
{
    if row < STATIC_ROWS {
        setup_thread(image, row)
    } else if STATIC_THREADS + (row - STATIC_ROWS) < THREADS {
        Some((STATIC_THREADS + (row - STATIC_ROWS)) as u8)
    } else {
        None
    }
}
