//! What options want, in words for a person.

/// Each option that has a value of some form, and that form.
pub(crate) const WISHES: [(&'static str, &'static str); 11] = [
    ("skew-ms", "a whole number of milliseconds, 0 to 86400000"),
    ("transit-ms", "a whole number of milliseconds, 0 to 3600000"),
    ("workers", "a whole number, 1 to 64"),
    (
        "holder",
        "a client's DUID: 3 to 130 octets, each two lower-case hexadecimal digits",
    ),
    (
        "prefix",
        "a prefix, as 2001:db8:0:100::/56, or for who an address",
    ),
    (
        "at",
        "milliseconds since 1970, or a time with its offset, as 2026-11-22T22:17:03+01:00",
    ),
    (
        "from",
        "milliseconds since 1970, or for join and copy a volume's number",
    ),
    (
        "to",
        "milliseconds since 1970, or for join and copy a volume's number",
    ),
    ("side", "A or B"),
    ("lines", "a whole number of lines, 1 to 281474976710656"),
    (
        "within",
        "a whole number of seconds, 1 to 86400, and no --minute beside it",
    ),
];
