//! Indications that are accepted, from which the cases depart.

use indication::header::Kind;

/// An indication by its name, in hexadecimal, and the kind that it is taken as.
#[derive(Clone, Copy)]
pub struct Base {
    pub name: &'static str,
    pub text: &'static [u8],
    pub taken: Kind,
}

/// A tariff of one entry, one-time of 60 s: its charge at 24, its use at 30 and its duration at 31.
pub const ONE: Base = Base {
    name: "one entry",
    text: b"0100010000000000455552000000000000000036000000010001A72DFFF901003C",
    taken: Kind::Tariff,
};

/// A current tariff and a next tariff from 18:00 on, with restart. The terms, from 66 on, are an attempt, a set-up,
/// periodic of 60 s and periodic without end; then, from 78 on, a set-up, one-time of 60 s and periodic without end.
pub const BOTH: Base = Base {
    name: "both tariffs",
    text: b"040301010000480045555200000000000000003600000002\
    00000001FFFE00000002FFFE00000003FFFE00000004FFFE\
    00000005FFFE00000006FFFE00000007FFFE\
    03000002000000003C000000\
    02000001003C000000",
    taken: Kind::Tariff,
};

/// Two tariffs of six entries, which is the most: an attempt, a set-up and four subtariffs. The terms are from 96 and
/// from 114 on.
pub const FULL: Base = Base {
    name: "full tariffs",
    text: b"060601000101600045555200000000000000003600000003\
    000000010000000000020000000000030000000000040000000000050000000000060000\
    0000000700000000000800000000000900000000000A00000000000B00000000000C0000\
    030000020000000001010002000003000004\
    030000020000000001010002000003000000",
    taken: Kind::Tariff,
};

/// An add-on: its use at 30 and its duration at 31.
pub const ADD_ON: Base = Base {
    name: "an add-on",
    text: b"010002000000000045555200000000000000003600000004000001F4FFFE040000",
    taken: Kind::AddOn,
};

/// The add-on where a tariff is taken.
pub const UNTAKEN: Base = Base {
    name: "an add-on, not taken",
    taken: Kind::Tariff,
    ..ADD_ON
};
