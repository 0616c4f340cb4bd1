// The two tests of the plane on positions whose answers can be seen.
use crate::plane::{circle, side};
use crate::position::{LIMIT, Position};
use crate::verdict::{Circle, Side};

fn at(x: u64, y: u64) -> Position {
    Position {
        x: x % LIMIT,
        y: y % LIMIT,
    }
}

#[test]
fn sides(rt: HostRuntime) {
    assert_eq!(rt; side(at(0, 0), at(4, 2), at(2, 2)), Side::Left);
    assert_eq!(rt; side(at(4, 2), at(0, 0), at(2, 2)), Side::Right);
    assert_eq!(rt; side(at(0, 0), at(4, 2), at(1048574, 524287)), Side::On);
    assert_eq!(rt; side(at(3, 3), at(3, 3), at(5, 9)), Side::On);
}

#[test]
fn circles(rt: HostRuntime) {
    let m = LIMIT - 1;
    assert_eq!(rt; circle(at(0, 0), at(m, 0), at(m, m), at(0, m)), Circle::On);
    assert_eq!(rt;
        circle(at(0, 0), at(m, 0), at(m, m), at(1, m)),
        Circle::Inside
    );
    assert_eq!(rt;
        circle(at(1, 0), at(m, 0), at(m, m), at(0, m)),
        Circle::Outside
    );
    assert_eq!(rt;
        circle(at(0, 0), at(m, m), at(m, 0), at(1, m)),
        Circle::Outside
    );
}

#[test]
fn refusals(rt: HostRuntime) {
    assert!(rt; Position::new(LIMIT - 1, LIMIT - 1).is_some());
    assert!(rt; Position::new(LIMIT, 0).is_none());
    assert!(rt; Position::new(0, LIMIT).is_none());
}
