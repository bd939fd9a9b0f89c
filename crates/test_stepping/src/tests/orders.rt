//! The order of processors, and lists in which threads stand.

ghost use Rattle.std.specs.Prelude.{◌≡◌, [], ◌∷◌};
ghost use Rattle.um_invariants.specs.Lines.{all_join};

use std::test::Fail;
use um_core::Order;

#[test]
fn processors_fall_as_the_words_of_a_seed(rt: HostRuntime) -> Result<(), Fail> {
    // The words of PCG XSH RR 64/32 from seed 7 begin with 2442223337, 414063806, 2743600285, 3524868804, 2371632060 and 1368306093.
    let mut of_three = Order::new(Some(7));
    for preferred in [2, 2, 1, 0, 0, 0] {
        assert_eq!(rt; of_three.next(3), preferred);
    }
    let mut of_eight = Order::new(Some(7));
    for preferred in [1, 6, 5, 4, 4, 5] {
        assert_eq!(rt; of_eight.next(8), preferred);
    }
    Ok(())
}

/// A number that stands in a line keeps its place there.
fn joined_once()
    ensures { all_join [] (3 ∷ 1 ∷ 3 ∷ []) ≡ 3 ∷ 1 ∷ [] }
{}

#[test]
fn a_number_stands_once_in_a_line() {
    joined_once();
}
