//! Lines, with what they are read as.

/// Lines with bytes that a file of rows can't have, and what they are read as.
pub static NO_TEXT: &[(&[u8], &str)] = &[
    (b"GlobalFree 1\xff", "bad"),
    (b";\x00\x0b\xff\r", "silent"),
    (b"Builtin A\xff", "bad"),
    (b"LoadLibrary \x80", "bad"),
    (b"LoadModule A\x7f", "bad"),
    (b"GetModuleHandle A\x0b", "bad"),
    (b"GetProcAddress 1 A\xe4", "bad"),
    (b"GetProcAddress 1 #5\x00", "bad"),
    (b"GlobalFree 1\r", "bad"),
    (b"\r", "bad"),
    (b"\x0b", "bad"),
    (b"GlobalFree\x0b1", "bad"),
    (b"GlobalFree \x0c1", "bad"),
    (b"GlobalFree 1\x00", "bad"),
];

/// How many digits are written, and how many bytes they are.
pub static BYTES: &[(usize, Option<usize>)] = &[
    (0, None),
    (1, None),
    (2, Some(1)),
    (3, None),
    (2048, Some(1024)),
    (2049, None),
    (2050, None),
];

/// How many letters stand after a command, and how many a text of them has.
pub static LETTERS: &[(usize, Option<usize>)] = &[
    (0, None),
    (1, Some(1)),
    (254, Some(254)),
    (255, Some(255)),
    (256, None),
    (257, None),
    (511, None),
];
