use crate::{Least, Line};
use std::test::Fail;

// Norms and margins of LightSaber that `oracle/selftest.py` has.
#[test]
fn margins(rt: HostRuntime) {
    let p = sets::set_params(1);
    assert!(rt; p.margin <= 256);
    for (norm, margin) in [
        (0u16, 1536),
        (1528, 8),
        (1536, 0),
        (1544, -8),
        (10240, -8704),
    ] {
        let least = Least::of(p, 1, usize::from(norm));
        assert_eq!(rt; least.0, Some(margin), "norm {norm}");
    }
    assert_eq!(rt; Least::of(p, 0, 0).0, None);
}

// Figures and lines that `oracle/selftest.py` has.
#[test]
fn lines(rt: HostRuntime) -> Result<(), Fail> {
    for (set, cases, least, wrong, rest, line) in [
        (1, 0, None, 0, 95, "1 0 none 0 95\n"),
        (2, 2, Some(0), 0, 1, "2 2 0 0 1\n"),
        (3, 3, Some(1200), 0, 0, "3 3 1200 0 0\n"),
        (3, 3, Some(-8704), 259, 95, "3 3 -8704 259 95\n"),
    ] {
        let least = Least(least);
        let figures = Line {
            set,
            cases,
            least,
            wrong,
            rest,
        };
        let text = format!(in rt.alloc(); "{figures}")?;
        assert_eq!(rt; text.as_str(), line);
    }
    Ok(())
}
