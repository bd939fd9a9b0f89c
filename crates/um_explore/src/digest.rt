//! Digests of states with the failures on the way to them.

use crate::failures::Failure;
use um_matrix::Matrix;

/// A number that the same states with the same failures have in common. Others may have it too, so nothing that is promised rests on it.
pub(crate) fn digest(state: &Matrix, notes: &[Option<Failure>]) -> u64 {
    let mut digest = state.digest();
    for note in notes {
        let reason = match note {
            Some(failure) => failure.reason as u64 + 1,
            None => 0,
        };
        digest = digest.wrapping_mul(31).wrapping_add(reason);
    }
    digest
}
