use std::test::*;
use worked_examples::*;

#[test]
fn the_law_of_the_examples_is_called(rt: HostRuntime) {
    examples_hold();
}
