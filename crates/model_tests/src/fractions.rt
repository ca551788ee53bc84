// Fractions: comparisons, roundings and least common multiples.
use grid_fraction::{Frac, greater, lcm_within, meets, mul_down, up};

#[test]
fn fractions_are_exact(rt: HostRuntime) {
    let multiples = [
        lcm_within(&[8, 10, 14], 280),
        lcm_within(&[8, 10, 14], 279),
        lcm_within(&[], 1),
    ];
    assert_eq!(rt; multiples, [Some(280), None, Some(1)]);
    assert_eq!(rt; (up(1120, 6), mul_down(364, 6, 280)), (187, 7));
    let met = Frac { num: 836, den: 280 };
    let compared = greater(Frac { num: 52, den: 14 }, Frac { num: 36, den: 10 });
    assert_eq!(rt;
        [meets(3, met), meets(2, met), compared],
        [true, false, true]
    );
}
