// Bernoulli numbers as they are published, and the primes that they are held against.

// B_k, in lowest terms: its sign, and the digits of its numerator, as there are up to 43 of them. The flag is the sign
// itself, and tells of no value that may be missing.
#[derive(Clone, Copy)]
pub struct Value {
    pub index: u32,
    pub negative: bool,
    pub numerator: &'static str,
    pub denominator: u32,
}

// A prime with one of its primitive roots.
#[derive(Clone, Copy)]
pub struct Prime {
    pub modulus: u32,
    pub root: u32,
}

// For the index k those from k + 3 on serve, none of which divides the denominator of B_k: its prime factors are those
// p for which p − 1 divides k.
pub(crate) static PRIMES: [Prime; 14] = [
    Prime {
        modulus: 5,
        root: 2,
    },
    Prime {
        modulus: 7,
        root: 3,
    },
    Prime {
        modulus: 11,
        root: 2,
    },
    Prime {
        modulus: 13,
        root: 2,
    },
    Prime {
        modulus: 17,
        root: 3,
    },
    Prime {
        modulus: 31,
        root: 3,
    },
    Prime {
        modulus: 37,
        root: 2,
    },
    Prime {
        modulus: 61,
        root: 2,
    },
    Prime {
        modulus: 73,
        root: 5,
    },
    Prime {
        modulus: 127,
        root: 3,
    },
    Prime {
        modulus: 257,
        root: 3,
    },
    Prime {
        modulus: 8191,
        root: 17,
    },
    Prime {
        modulus: 65537,
        root: 3,
    },
    Prime {
        modulus: 104729,
        root: 12,
    },
];

pub(crate) static VALUES: [Value; 30] = [
    Value {
        index: 2,
        negative: false,
        numerator: "1",
        denominator: 6,
    },
    Value {
        index: 4,
        negative: true,
        numerator: "1",
        denominator: 30,
    },
    Value {
        index: 6,
        negative: false,
        numerator: "1",
        denominator: 42,
    },
    Value {
        index: 8,
        negative: true,
        numerator: "1",
        denominator: 30,
    },
    Value {
        index: 10,
        negative: false,
        numerator: "5",
        denominator: 66,
    },
    Value {
        index: 12,
        negative: true,
        numerator: "691",
        denominator: 2730,
    },
    Value {
        index: 14,
        negative: false,
        numerator: "7",
        denominator: 6,
    },
    Value {
        index: 16,
        negative: true,
        numerator: "3617",
        denominator: 510,
    },
    Value {
        index: 18,
        negative: false,
        numerator: "43867",
        denominator: 798,
    },
    Value {
        index: 20,
        negative: true,
        numerator: "174611",
        denominator: 330,
    },
    Value {
        index: 22,
        negative: false,
        numerator: "854513",
        denominator: 138,
    },
    Value {
        index: 24,
        negative: true,
        numerator: "236364091",
        denominator: 2730,
    },
    Value {
        index: 26,
        negative: false,
        numerator: "8553103",
        denominator: 6,
    },
    Value {
        index: 28,
        negative: true,
        numerator: "23749461029",
        denominator: 870,
    },
    Value {
        index: 30,
        negative: false,
        numerator: "8615841276005",
        denominator: 14322,
    },
    Value {
        index: 32,
        negative: true,
        numerator: "7709321041217",
        denominator: 510,
    },
    Value {
        index: 34,
        negative: false,
        numerator: "2577687858367",
        denominator: 6,
    },
    Value {
        index: 36,
        negative: true,
        numerator: "26315271553053477373",
        denominator: 1919190,
    },
    Value {
        index: 38,
        negative: false,
        numerator: "2929993913841559",
        denominator: 6,
    },
    Value {
        index: 40,
        negative: true,
        numerator: "261082718496449122051",
        denominator: 13530,
    },
    Value {
        index: 42,
        negative: false,
        numerator: "1520097643918070802691",
        denominator: 1806,
    },
    Value {
        index: 44,
        negative: true,
        numerator: "27833269579301024235023",
        denominator: 690,
    },
    Value {
        index: 46,
        negative: false,
        numerator: "596451111593912163277961",
        denominator: 282,
    },
    Value {
        index: 48,
        negative: true,
        numerator: "5609403368997817686249127547",
        denominator: 46410,
    },
    Value {
        index: 50,
        negative: false,
        numerator: "495057205241079648212477525",
        denominator: 66,
    },
    Value {
        index: 52,
        negative: true,
        numerator: "801165718135489957347924991853",
        denominator: 1590,
    },
    Value {
        index: 54,
        negative: false,
        numerator: "29149963634884862421418123812691",
        denominator: 798,
    },
    Value {
        index: 56,
        negative: true,
        numerator: "2479392929313226753685415739663229",
        denominator: 870,
    },
    Value {
        index: 58,
        negative: false,
        numerator: "84483613348880041862046775994036021",
        denominator: 354,
    },
    Value {
        index: 60,
        negative: true,
        numerator: "1215233140483755572040304994079820246041491",
        denominator: 56786730,
    },
];
