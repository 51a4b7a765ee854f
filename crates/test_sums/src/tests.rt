//! Sums of bytes, in one piece and in two, and of records.
use record_sums::{crc32c, record_sum};

// The bytes from 0 to 31.
const RISING: [u8; 32] = [
    0, 1, 2, 3, 4, 5, 6, 7, 8, 9, 10, 11, 12, 13, 14, 15, 16, 17, 18, 19, 20, 21, 22, 23, 24, 25,
    26, 27, 28, 29, 30, 31,
];

// The sums of 32 bytes are those of RFC 3720, "Internet Small Computer Systems Interface", B.4.
#[test]
fn known_sums(rt: HostRuntime) {
    let (zeros, ones, rising) = ([0u8; 32], [255u8; 32], RISING);
    let rows = [
        (b"".as_slice(), 0),
        (b"123456789".as_slice(), 0xE306_9283),
        (zeros.as_slice(), 0x8A91_36AA),
        (ones.as_slice(), 0x62A8_AB43),
        (rising.as_slice(), 0x46DD_794E),
    ];
    for (bytes, sum) in rows {
        assert_eq!(rt; crc32c(0, bytes), sum);
        let (front, back) = bytes.split_at(bytes.len() / 2);
        assert_eq!(rt; crc32c(crc32c(0, front), back), sum);
    }
    // The sum before, the number, the payload and the sum, as another program computed it from 12 bytes and the payload.
    let records = [
        (0, 0, b"".as_slice(), 0x2B60_B55D),
        (0, 1, b"a".as_slice(), 0xDBC8_63CD),
        (
            0xDEAD_BEEF,
            0x100_0000_0007,
            b"[\"hello\"]".as_slice(),
            0xDD94_7A98,
        ),
    ];
    for (before, number, payload, sum) in records {
        assert_eq!(rt; record_sum(before, number, payload), sum);
    }
}
