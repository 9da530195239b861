//! Dates and moments against what Python's `datetime` prints of them.

use site_dates::{date_text, moment_text};

#[test]
fn texts_of_moments(rt: HostRuntime) {
    let cases: [(u64, &[u8]); 6] = [
        (0, b"1970-01-01T00:00:00Z"),
        (50, b"1970-01-01T00:00:50Z"),
        (951_868_799, b"2000-02-29T23:59:59Z"),
        (1_709_164_800, b"2024-02-29T00:00:00Z"),
        (4_102_444_800, b"2100-01-01T00:00:00Z"),
        (4_107_542_400, b"2100-01-01T00:00:00Z"),
    ];
    for (moment, wanted) in cases {
        let text = moment_text(rt.alloc(), moment).expect(&rt, "memory");
        assert!(rt; text.as_slice() == wanted);
    }
}

#[test]
fn texts_of_dates(rt: HostRuntime) {
    let cases: [(u64, &[u8]); 6] = [
        (0, b"1970-01-01"),
        (951_782_400, b"2000-02-29"),
        (951_868_799, b"2000-02-29"),
        (1_709_164_800, b"2024-02-29"),
        (4_102_444_800, b"2100-01-01"),
        (4_107_542_400, b"2100-01-01"),
    ];
    for (moment, wanted) in cases {
        let text = date_text(rt.alloc(), moment).expect(&rt, "memory");
        assert!(rt; text.as_slice() == wanted);
    }
}
