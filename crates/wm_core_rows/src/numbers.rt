use wm_numbers::{clamp16, clamp32, floor_shift};

#[test]
fn the_ends_and_one_beyond(rt: HostRuntime) {
    for (z, near16, near32) in [
        (0, 0, 0),
        (32767, 32767, 32767),
        (32768, 32767, 32768),
        (-32768, -32768, -32768),
        (-32769, -32768, -32769),
        (2147483648, 32767, 2147483647),
        (-2147483649, -32768, -2147483648),
    ] {
        assert_eq!(rt; clamp16(z), near16, "at {z}");
        assert_eq!(rt; clamp32(z), near32, "at {z}");
    }
}

#[test]
fn floors_round_down(rt: HostRuntime) {
    for (z, places, down) in [
        (7, 1, 3),
        (-7, 1, -4),
        (-1, 15, -1),
        (65535, 16, 0),
        (-65537, 16, -2),
        (9, 0, 9),
    ] {
        assert_eq!(rt; floor_shift(z, places), down, "at {z}");
    }
}
