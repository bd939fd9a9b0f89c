//! Rows and addresses.

ghost use Rattle.std.specs.Prelude.{◌≡◌, ◌+◌, ◌<◌, ◌≤◌, ◌^◌, ◌==◌, IfSome, position, length};
ghost use Rattle.um_base.specs.{
  Places.{dynamic_row, row_at, addr_of, own_row, is_thread_index, thread_of_row, setup_at, setup_thread},
  declared.image.ObjectDef.{ObjectDef},
};

use um_base::{
    DYNAMIC_OBJECTS, Image, OBJECT_STEP, ObjectDef, ROWS, STATIC_ROWS, STATIC_THREADS, Setup,
    THREADS,
};

/// The dynamic row at an address.
fn dynamic_row(a: u32) -> Option<usize>
    ensures value { result ≡ dynamic_row a }
    ensures small { IfSome result (λ x. x < ROWS) }
{
    let past = DYNAMIC_OBJECTS + OBJECT_STEP * (ROWS - STATIC_ROWS) as u32;
    if a >= DYNAMIC_OBJECTS && a < past && (a - DYNAMIC_OBJECTS) % OBJECT_STEP == 0 {
        Some(STATIC_ROWS + ((a - DYNAMIC_OBJECTS) / OBJECT_STEP) as usize)
    } else {
        None
    }
}

/// The static row at an address.
fn static_row(objects: &[ObjectDef], a: u32) -> Option<usize>
    ensures value { result ≡ position (λ (o : ObjectDef). o.addr.0 == a) objects.now }
    ensures small { IfSome result (λ x. x < length objects.now) }
{
    objects.iter().position(|o| o.addr.0 == a)
}

/// The row whose address is exactly this.
pub fn row_at(image: &Image, a: u32) -> Option<usize>
    ensures value { result ≡ row_at image.now a }
    ensures small { IfSome result (λ x. x < ROWS) }
{
    let objects = image.objects.as_slice();
    match static_row(objects, a) {
        Some(x) => Some(x),
        None => dynamic_row(a),
    }
}

/// What a description says of a row.
pub fn setup_at(image: &Image, x: usize) -> Setup
    ensures { result ≡ setup_at image.now x }
{
    match image.objects.as_slice().get(x) {
        Some(o) => o.setup,
        None => Setup::Bare,
    }
}

/// The address of a row.
pub fn addr_of(image: &Image, x: usize) -> u32
    requires { x < 256 }
    ensures { result ≡ addr_of image.now x }
{
    match image.objects.as_slice().get(x) {
        Some(o) => o.addr.0,
        None => DYNAMIC_OBJECTS + OBJECT_STEP * x.saturating_sub(STATIC_ROWS) as u32,
    }
}

/// Whether a static object is the thread object of an index.
fn is_thread_index(t: usize, o: &ObjectDef) -> bool
    ensures { result ≡ is_thread_index t o.now }
{
    match o.setup {
        Setup::Thread { index } => index.0 as usize == t,
        _ => false,
    }
}

fn thread_row(objects: &[ObjectDef], t: usize) -> Option<usize>
    ensures value { result ≡ position (is_thread_index t) objects.now }
    ensures small { IfSome result (λ x. x < length objects.now) }
{
    objects.iter().position(|o| is_thread_index(t, o))
}

/// The row of a thread's own object.
pub fn own_row(image: &Image, t: usize) -> usize
    requires { t < THREADS }
    ensures value { result ≡ own_row image.now t }
    ensures small { result < ROWS }
{
    if t < STATIC_THREADS {
        let objects = image.objects.as_slice();
        match thread_row(objects, t) {
            Some(x) => x,
            None => 0,
        }
    } else {
        STATIC_ROWS + (t - STATIC_THREADS)
    }
}

/// The thread index of a row, if it is that of a thread object.
pub fn thread_of_row(image: &Image, x: usize) -> Option<usize>
    requires { x < 256 }
    ensures value { result ≡ thread_of_row image.now x }
    ensures small { IfSome result (λ t. t < 256) }
{
    if x < STATIC_ROWS {
        match setup_at(image, x) {
            Setup::Thread { index } => Some(index.0 as usize),
            _ => None,
        }
    } else if STATIC_THREADS + (x - STATIC_ROWS) < THREADS {
        Some(STATIC_THREADS + (x - STATIC_ROWS))
    } else {
        None
    }
}
