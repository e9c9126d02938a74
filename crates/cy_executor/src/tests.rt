// The rows of the table at their bounds, worked out by hand.
use super::*;
use std::test::Fail;

#[test]
fn threads_start_by_the_table(rt: HostRuntime) -> Result<(), Fail> {
    let rows: [(u32, u32, u32, u32, Admission); 10] = [
        (1, 2, 4, 1, Admission::Start),
        (4, 2, 4, 9, Admission::Queue),
        (2, 2, 4, 2, Admission::Queue),
        (2, 2, 4, 3, Admission::Start),
        (0, 1, 1, 1, Admission::Start),
        (1, 1, 1, 9, Admission::Queue),
        (3, 2, 4, 4, Admission::Start),
        (3, 2, 4, 3, Admission::Queue),
        (5, 2, 4, 9, Admission::Queue),
        (1, 2, 1, 0, Admission::Start),
    ];
    for (threads, core, max, submitted, answer) in rows {
        let counts = Counts {
            threads,
            core,
            max,
            submitted,
        };
        assert_eq!(rt; admit(&counts), answer);
    }
    Ok(())
}

#[test]
fn laws_hold() {
    laws::threads_start_below_their_bounds();
}
