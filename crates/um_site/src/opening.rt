//! The words with which a board may open.

ghost use Rattle.std.specs.Prelude.{◌≡◌, ℕ, ◌%◌, ◌<◌, ◌≤◌, true, false, length, slice_index};
ghost use Rattle.um_words.specs.Steps.{number};

use um_words::step_number;

/// The site of the first cell.
const CELLS: usize = 168;

/// Whether no cell's turn is taken in these words.
pub fn have_no_turn(words: &[u64]) -> bool
    requires { length words.now ≤ 65536 }
    ensures yes { result ≡ true → (i : ℕ) → 168 ≤ i → i < length words.now → slice_index words.now i % 2 ≡ 0 }
    ensures no { result ≡ false
        → ((i : ℕ) → 168 ≤ i → i < length words.now → slice_index words.now i % 2 ≡ 0) → ⊥ }
{
    let mut site = CELLS;
    while site < words.len() {
        if words[site] % 2 != 0 {
            return false;
        }
        site += 1;
    }
    true
}

/// Whether each of these words has step number 0.
pub fn are_unstepped(words: &[u64]) -> bool
    requires { length words.now ≤ 65536 }
    ensures yes { result ≡ true → (i : ℕ) → i < length words.now → number i (slice_index words.now i) ≡ 0 }
    ensures no { result ≡ false → ((i : ℕ) → i < length words.now → number i (slice_index words.now i) ≡ 0)
        → ⊥ }
{
    let mut site = 0;
    while site < words.len() {
        if step_number(site as u16, words[site]) != 0 {
            return false;
        }
        site += 1;
    }
    true
}
