//! The passes of the key `amy-1`, and its signatures, from an independent program.

/// The pass of `amy-1` under `ROOT` in each form. The text in V2 has 79 characters.
pub const AMY_V1: &str =
    "MDAxN2xvY2F0aW9uIGNsdWItZGVzawowMDE5aWRlbnRpZmllciBrZXk6YW15LTEKMDAyZnNpZ25hdHVyZSAOxT68xWmrcT\
    Hn8FCToPlVfpOKYLQh8KTsOfqe_tMgmQo";

pub const AMY_V2: &str =
    "AgEJY2x1Yi1kZXNrAglrZXk6YW15LTEAAAYgDsU-vMVpq3Ex5_BQk6D5VX6TimC0IfCk7Dn6nv7TIJk";

pub const AMY_JSON: &str =
    "{\"c\":[],\"i\":\"key:amy-1\",\"l\":\"club-desk\",\"s64\":\"DsU-vMVpq3Ex5_BQk6D5VX6Tim\
    C0IfCk7Dn6nv7TIJk\",\"v\":2}";

pub const AMY_1_SIGNATURE: [u8; 32] = *b"\
    \x0e\xc5\x3e\xbc\xc5\x69\xab\x71\x31\xe7\xf0\x50\x93\xa0\xf9\x55\
    \x7e\x93\x8a\x60\xb4\x21\xf0\xa4\xec\x39\xfa\x9e\xfe\xd3\x20\x99";

pub const AMY_1_SECOND_SIGNATURE: [u8; 32] = *b"\
    \x28\x21\x57\xe9\x8b\xa6\x97\x8e\xaa\x38\xd3\x9a\x5c\xb7\x7c\x35\
    \xd4\x9c\x30\x71\x77\x46\x18\x1e\xaf\x66\xe9\xbc\x38\x69\x1e\x8f";
