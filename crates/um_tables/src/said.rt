//! What a site answers when it is asked for a step.

/// What a site answers when it is asked for a step.
#[derive(Clone, Copy, PartialEq, Eq)]
pub enum Said<T> {
    /// The step was made, and the site says this.
    Made(T),
    /// The site refuses such a step now. No step was made.
    Busy,
    /// Others are at the site, or nothing more can be noted. No step was made.
    Changed,
}
