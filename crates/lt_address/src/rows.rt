// Worked by hand. A set is written as three numbers, and is the least that holds them.
use lt_model::Scalar;

pub(crate) type Seed = (i128, i128, i128);

pub(crate) type Parts = (i128, i128, u128, u128);

// A set, a type of LP64, and what the conversion to the type gives.
pub(crate) const CONVERSIONS: [(Seed, Scalar, Parts); 12] = [
    ((0, 2, 6), Scalar::Bool, (0, 1, 1, 0)),
    ((2, 4, 6), Scalar::Bool, (1, 1, 0, 0)),
    ((0, 0, 0), Scalar::Bool, (0, 0, 0, 0)),
    ((-3, 3, 9), Scalar::Bool, (1, 1, 0, 0)),
    ((3, 7, 7), Scalar::UChar, (3, 7, 4, 3)),
    ((250, 255, 260), Scalar::UChar, (0, 255, 1, 0)),
    ((252, 256, 260), Scalar::UChar, (0, 252, 4, 0)),
    ((300, 300, 300), Scalar::UChar, (44, 44, 0, 0)),
    ((200, 200, 200), Scalar::SChar, (-56, -56, 0, 0)),
    ((126, 128, 130), Scalar::SChar, (-128, 126, 2, 0)),
    ((-1, -1, -1), Scalar::UInt, (4294967295, 4294967295, 0, 0)),
    ((-3, 0, 3), Scalar::UShort, (0, 65535, 1, 0)),
];

pub(crate) const THRESHOLDS: [i128; 7] = [
    10,
    -1,
    0,
    1,
    20,
    -0x8000_0000_0000_0001,
    0x1_0000_0000_0000_0000,
];

// A set, and what rounding to the thresholds gives; the last two thresholds are no values of C.
pub(crate) const ROUNDINGS: [(Seed, Parts); 8] = [
    ((3, 4, 8), (1, 10, 1, 0)),
    ((3, 6, 9), (3, 9, 3, 0)),
    ((4, 8, 16), (4, 20, 4, 0)),
    ((5, 5, 5), (5, 5, 0, 0)),
    ((-7, -6, 30), (-7, 30, 1, 0)),
    ((2, 19, 19), (2, 19, 17, 2)),
    ((0, 1, 10), (0, 10, 1, 0)),
    ((13, 15, 15), (11, 19, 2, 1)),
];

// Two sets, and whether the first lies within the second.
pub(crate) const ORDERS: [(Seed, Seed, bool); 8] = [
    ((0, 2, 6), (0, 2, 10), true),
    ((0, 2, 6), (0, 4, 12), false),
    ((0, 4, 12), (0, 2, 12), true),
    ((3, 3, 3), (3, 7, 7), true),
    ((5, 5, 5), (3, 7, 7), false),
    ((3, 7, 7), (7, 7, 7), false),
    ((-4, -2, 0), (-4, -3, 0), true),
    ((0, 1, 11), (0, 1, 10), false),
];

// A number, a set, and whether it is a member.
pub(crate) const MEMBERS: [(i128, Seed, bool); 6] = [
    (7, (3, 7, 7), true),
    (5, (3, 7, 7), false),
    (-2, (-6, -4, 0), true),
    (1, (0, 2, 2), false),
    (9, (9, 9, 9), true),
    (10, (9, 9, 9), false),
];
