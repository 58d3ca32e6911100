//! What is left of the limits of the service.

use outside_doors::waits::{Limits, Waits};
use std::test::Fail;

const SECOND: u64 = 1_000_000;

// What was waited: so many seconds until something came, or until something was taken, and whether that was the rest of a reply.
enum Step {
    Read(u64),
    Wrote(u64, bool),
}

// What is left to read and to write then, in seconds.
struct Row {
    step: Step,
    left: (u64, u64),
}

static ROWS: [Row; 11] = [
    Row {
        step: Step::Read(29),
        left: (1, 30),
    },
    Row {
        step: Step::Read(0),
        left: (1, 30),
    },
    Row {
        step: Step::Wrote(29, false),
        left: (1, 1),
    },
    Row {
        step: Step::Wrote(1, true),
        left: (600, 30),
    },
    Row {
        step: Step::Read(60),
        left: (540, 30),
    },
    Row {
        step: Step::Read(60),
        left: (480, 30),
    },
    Row {
        step: Step::Wrote(0, true),
        left: (600, 30),
    },
    Row {
        step: Step::Read(601),
        left: (0, 30),
    },
    Row {
        step: Step::Wrote(20, true),
        left: (600, 30),
    },
    Row {
        step: Step::Read(2780),
        left: (0, 20),
    },
    Row {
        step: Step::Wrote(21, true),
        left: (0, 0),
    },
];

#[test]
fn limits_of_the_service(rt: HostRuntime) -> Result<(), Fail> {
    let mut waits = Waits::new(Limits::of_service());
    assert!(rt; waits.left_to_read() == 30 * SECOND);
    assert!(rt; waits.left_to_write() == 30 * SECOND);
    for row in &ROWS {
        match row.step {
            Step::Read(seconds) => waits.read(seconds.saturating_mul(SECOND)),
            Step::Wrote(seconds, whole) => waits.wrote(seconds.saturating_mul(SECOND), whole),
        }
        assert!(rt; waits.left_to_read() == row.left.0.saturating_mul(SECOND));
        assert!(rt; waits.left_to_write() == row.left.1.saturating_mul(SECOND));
    }
    Ok(())
}
