use diagram_terms::Label;
use label_order::{Clash, join, leq};
use std::test::Fail;

fn label(number: u32, dim: u8) -> Label {
    Label { number, dim }
}

#[test]
fn orders_labels(rt: HostRuntime) {
    let point = label(0, 0);
    let arrow = label(1, 1);
    assert!(rt; leq(point, arrow));
    assert!(rt; leq(arrow, arrow));
    assert!(rt; !leq(arrow, point));
    assert!(rt; !leq(arrow, label(2, 1)));
}

#[test]
fn joins_labels(rt: HostRuntime) -> Result<(), Fail> {
    let (x, f, g, a, b) = (
        label(0, 0),
        label(1, 1),
        label(2, 1),
        label(3, 2),
        label(4, 2),
    );
    assert_eq!(rt; join(&[x]), Ok(x));
    assert_eq!(rt; join(&[x, f, x, f]), Ok(f));
    assert_eq!(rt; join(&[f, g, a, x]), Ok(a));
    assert_eq!(rt; join(&[f, x, g]), Err(Clash { one: f, other: g }));
    assert_eq!(rt;
        join(&[f, g, a, a, b, label(5, 2)]),
        Err(Clash { one: a, other: b })
    );
    Ok(())
}
