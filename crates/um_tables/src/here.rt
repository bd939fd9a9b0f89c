//! Where a step is made.

use um_base::Image;

/// The image, and the number of the processor that makes a step.
#[derive(Clone, Copy)]
pub struct Here<'a> {
    pub image: &'a Image,
    pub cpu: u8,
}
