use crate::Printed;
use margin_line::{Least, Line};
use std::test::Fail;

// Figures and a report that `oracle/selftest.py` has, and the refusal.
#[test]
fn reports(rt: HostRuntime) -> Result<(), Fail> {
    let least = Least(Some(-8704));
    let line = Line {
        set: 3,
        cases: 3,
        least,
        wrong: 259,
        rest: 95,
    };
    for (printed, report) in [
        (Printed(None), "refused 1\n"),
        (
            Printed(Some(line)),
            "set cases least wrong rest\n3 3 -8704 259 95\n",
        ),
    ] {
        let text = format!(in rt.alloc(); "{printed}")?;
        assert_eq!(rt; text.as_str(), report);
    }
    Ok(())
}
