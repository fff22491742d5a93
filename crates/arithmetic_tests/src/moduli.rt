// The moduli and numbers that the tests go through.
pub static PRIMES: [u32; 10] = [
    5, 7, 17, 31, 257, 65537, 268434373, 1610612741, 2000000011, 2147483647,
];

pub static COMPOSITES: [u32; 10] = [
    9, 15, 25, 255, 65535, 149999855, 1073741825, 2000000009, 2147480633, 2147483645,
];

// Numbers at the edges of words, and near p.
pub fn numbers(p: u32) -> [u32; 12] {
    [
        0,
        1,
        2,
        3,
        255,
        65536,
        1234567890,
        4294967295,
        p / 2,
        p.saturating_sub(1),
        p,
        p.saturating_add(1),
    ]
}
