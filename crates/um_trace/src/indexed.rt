//! Images, with the rows of their threads' own objects and the rows at addresses.

ghost use Rattle.std.specs.Prelude.{◌≡◌, ◌<◌, IfSome, true};
ghost use Rattle.um_base.specs.Places.{own_row, row_at};
ghost use Rattle.um_trace.specs.Rows.{OwnRows, AreApart};

use std::marker::Model;
use um_base::{Image, OBJECT_STEP, OBJECTS, ROWS, STATIC_ROWS, STATIC_THREADS, THREADS};
use um_steps::rows;

/// An image, with what a text looks up of it. Contracts see the image.
#[derive(Drop)]
pub struct Indexed<'a> {
    image: &'a Image,
    /// The rows of the threads' own objects, by their thread indices, as far as they are known.
    own_rows: [u8; THREADS],
    known: usize,
    /// Whether no two objects are known to stand at one address.
    apart: bool,
}

impl<'a> Model for Indexed<'a> {
    ghost use Rattle.std.specs.Prelude.{◌≡◌, true};
    ghost use Rattle.um_base.specs.declared.image.Image.{Image};
    ghost use Rattle.um_trace.specs.Rows.{OwnRows, AreApart};

    ghost Value = { Image };

    ghost view = { λ i. i.image.now };

    ghost invariant = { λ i. OwnRows i.image.now i.own_rows i.known
        × (i.apart ≡ true → AreApart i.image.now) };
}

/// The row of a thread's own object. An index past those of threads has one as if there were more rows.
fn own_row(image: &Image, thread: u8) -> usize
    ensures value { result ≡ own_row image.now thread }
    ensures few { result < 1000 }
{
    let t = thread as usize;
    if t < THREADS {
        rows::own_row(image, t)
    } else {
        STATIC_ROWS + (t - STATIC_THREADS)
    }
}

/// The rows of the threads' own objects.
fn own_rows(image: &Image) -> [u8; THREADS]
    ensures { OwnRows image.now result THREADS }
{
    let mut found = [0u8; THREADS];
    for t in 0..THREADS {
        found[t] = rows::own_row(image, t) as u8;
    }
    found
}

/// Whether each static object is the first at its address.
fn are_apart(image: &Image) -> bool
    ensures { result ≡ true → AreApart image.now }
{
    for x in 0..image.objects.len() {
        if rows::row_at(image, rows::addr_of(image, x)) != Some(x) {
            return false;
        }
    }
    true
}

impl<'a> Indexed<'a> {
    /// An image of which a line or two are shown: everything is looked for when it is asked for.
    pub fn of_lines(image: &'a Image) -> Indexed<'a>
        ensures { result ≡ image.now }
    {
        Indexed {
            image,
            own_rows: [0; THREADS],
            known: 0,
            apart: false,
        }
    }

    /// An image of which a whole text is shown.
    pub fn of_text(image: &'a Image) -> Indexed<'a>
        ensures { result ≡ image.now }
    {
        Indexed {
            image,
            own_rows: own_rows(image),
            known: THREADS,
            apart: are_apart(image),
        }
    }

    /// The image.
    pub fn image(&self) -> &'a Image
        ensures { result.now ≡ self.now }
    {
        self.image
    }

    /// The row of a thread's own object. An index past those of threads has one as if there were more rows.
    pub fn own_row(&self, thread: u8) -> usize
        ensures value { result ≡ own_row self.now thread }
        ensures few { result < 1000 }
    {
        let t = thread as usize;
        if t < self.known {
            self.own_rows[t] as usize
        } else {
            own_row(self.image, thread)
        }
    }

    /// The row whose address is exactly this. For any object but a thread stack the address gives the row by itself.
    pub fn row_at(&self, a: u32) -> Option<usize>
        ensures value { result ≡ row_at self.now a }
        ensures small { IfSome result (λ x. x < ROWS) }
    {
        let x = (a.wrapping_sub(OBJECTS) / OBJECT_STEP) as usize;
        match self.image.objects.as_slice().get(x) {
            Some(object) if self.apart && object.addr.0 == a => Some(x),
            _ => rows::row_at(self.image, a),
        }
    }
}
