//! How a turn ends where a site made no step.

/// What the site says of the step, if it was made. If not, the calling function returns that turn.
macro_rules! made {
    ($said:expr) => {
        match $said {
            um_tables::Said::Made(said) => said,
            um_tables::Said::Busy => return $crate::Turn::Busy,
            um_tables::Said::Changed => return $crate::Turn::Changed,
        }
    };
}

/// Goes on where a step was made. Where none was, the turn of the function around it ends.
macro_rules! took {
    ($turn:expr) => {
        match $turn {
            $crate::Turn::Made => {}
            $crate::Turn::Busy => return $crate::Turn::Busy,
            $crate::Turn::Changed => return $crate::Turn::Changed,
            $crate::Turn::Stuck => return $crate::Turn::Stuck,
        }
    };
}

pub(crate) use made;
pub(crate) use took;
