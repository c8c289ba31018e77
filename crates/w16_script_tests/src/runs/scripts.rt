//! Hosts, with how runs over them end.

use super::{Dialogue, Script, Written};
use crate::host::Part;
use std::io::ErrorKind;
use w16_script::{Ended, RunFault};

/// The end of a script of that many lines, with that many replies.
macro_rules! ended {
    ($lines:expr, $replies:expr) => {
        Ok(Ended { lines: $lines, replies: $replies })
    };
}

/// Texts, with their lines and the replies to them, all of them to bad lines.
pub static COUNTED: &[(&[Part<'_>], u32, u32)] = &[
    (&[], 0, 0),
    (&[(1, b"\n\n ; a comment\n\t\n")], 4, 0),
    (&[(1, b"Frob\n")], 1, 1),
    (&[(1, b"Frob")], 1, 1),
    (&[(1, b"\nFrob")], 2, 1),
    (&[(1, b"Frob\r\n\r\n;\r\n")], 3, 1),
    (&[(1, b"\r\r\n")], 1, 1),
    (&[(1, b"\r")], 1, 1),
    (&[(1, b";\r")], 1, 0),
    (&[(1, b" ")], 1, 0),
    (
        &[(1, b"Read 0 1025\nGlobalAlloc 2\n\nr100 = GlobalAlloc 2 1")],
        4,
        3,
    ),
    (&[(1, b"\n\r\n\rFrob\n")], 3, 1),
    (&[(1, b"; Frob\nFrob ; Frob\n")], 2, 1),
];

/// Texts without end, how many bytes of them are read at once, and how often until they are too long.
pub static ENDLESS: &[(&[Part<'_>], usize, u32)] = &[
    (&[(u64::MAX, b"a")], 1, 4097),
    (&[(u64::MAX, b"a")], 1000, 5),
    (&[(u64::MAX, b"a")], 4096, 2),
    (&[(u64::MAX, b"a")], 4097, 1),
    (&[(u64::MAX, b"\n")], 1000, 1001),
    (&[(u64::MAX, b"\n")], 9901, 101),
];

/// Three bad lines; a new object, with a walk of 64 bytes of which it has the lower half; and one object's life.
pub static WRITTEN: &[Written] = &[
    Written {
        text: &[(1, b"Frob\n\nFrob\nFrob")],
        memory: 4096,
        ended: ended!(4, 3),
        written: b"error syntax\nerror syntax\nerror syntax\n",
    },
    Written {
        text: &[(1, b"GlobalAlloc 0x102 32\nWalk\n")],
        memory: 64,
        ended: ended!(2, 2),
        written: b"0106\n00000000 00000020 0106 discardable 0\n00000020 00000020 free\nend\n",
    },
    Written {
        text: &[(
            1,
            b"GlobalAlloc 0x42 100\nGlobalLock 0x106\nWrite 0x01070000 4e45\nRead 0x01070000 4\nGlobalUnlock 0x106\nGlobalFree 0x106\n",
        )],
        memory: 4096,
        ended: ended!(6, 6),
        written: b"0106\n01070000\nok\nbytes 4e450000\n0000\n0000\n",
    },
];

/// Three lines, each of which waits for the reply to the one before it; the last has no LF.
const LINES: &[Part<'_>] = &[(1, b"Frob\n"), (1, b"GlobalAlloc 2 32\n"), (1, b"Frob")];

/// A dialogue of these lines, in which nothing fails.
const TALK: Dialogue = Dialogue {
    name: "replies before it reads on",
    buffered: false,
    text: LINES,
    breaks: false,
    room: usize::MAX,
    flushes: u32::MAX,
    trouble: ErrorKind::Other,
    ended: ended!(3, 3),
    notes: &[(
        1,
        b"flush\nread\nerror syntax\nflush\nread\n0106\nflush\nread\nflush\nread\nerror syntax\n",
    )],
};

/// Runs over hosts that give them one by one, and over others that talk.
pub static DIALOGUES: &[Dialogue] = &[
    TALK,
    Dialogue {
        name: "replies through a buffer before it reads on",
        buffered: true,
        ..TALK
    },
    Dialogue {
        name: "reads nothing after the first flush that fails",
        flushes: 0,
        ended: Err(RunFault::Write),
        notes: &[(1, b"flush\n")],
        ..TALK
    },
    Dialogue {
        name: "reads nothing after the second flush that fails",
        flushes: 1,
        ended: Err(RunFault::Write),
        notes: &[(1, b"flush\nread\nerror syntax\nflush\n")],
        ..TALK
    },
    Dialogue {
        name: "reads nothing after the third flush that fails",
        flushes: 2,
        ended: Err(RunFault::Write),
        notes: &[(1, b"flush\nread\nerror syntax\nflush\nread\n0106\nflush\n")],
        ..TALK
    },
    Dialogue {
        name: "reads nothing after the fourth flush that fails",
        flushes: 3,
        ended: Err(RunFault::Write),
        notes: &[(
            1,
            b"flush\nread\nerror syntax\nflush\nread\n0106\nflush\nread\nflush\n",
        )],
        ..TALK
    },
    Dialogue {
        name: "reads nothing after a write that fails",
        room: 0,
        ended: Err(RunFault::Write),
        notes: &[(1, b"flush\nread\n")],
        ..TALK
    },
    Dialogue {
        name: "flushes again after an interruption",
        flushes: 1,
        trouble: ErrorKind::Interrupted,
        notes: &[(
            1,
            b"flush\nread\nerror syntax\nflush\nflush\nread\n0106\nflush\nread\nflush\nread\nerror syntax\n",
        )],
        ..TALK
    },
    Dialogue {
        name: "reads to the end and not past it",
        text: &[(1, b"Frob\nFrob")],
        ended: ended!(2, 2),
        notes: &[(1, b"flush\nread\nerror syntax\nflush\nread\nerror syntax\n")],
        ..TALK
    },
    Dialogue {
        name: "reads no line whose end it fails to read",
        text: &[(1, b"Frob\nFrob")],
        breaks: true,
        ended: Err(RunFault::Read),
        notes: &[(1, b"flush\nread\nerror syntax\nflush\nread\n")],
        ..TALK
    },
];

/// All scripts. Only this function names the table, so that a proof meets its contents once.
pub fn scripts() -> &'static [Script] {
    SCRIPTS
}

/// A script that is read at once, on a machine of 4,096 bytes.
const SCRIPT: Script = Script {
    name: "plays nothing",
    text: &[],
    by: &[usize::MAX],
    breaks: false,
    interrupts: false,
    memory: 4096,
    ended: ended!(0, 0),
    notes: &[],
};

const OF_A_LINE: Script = Script {
    name: "limits the length of a line",
    by: &[1, 4096, 4097, 100_000],
    ..SCRIPT
};

const OF_LINES: Script = Script {
    name: "limits the lines",
    interrupts: true,
    ..SCRIPT
};

static SCRIPTS: &[Script] = &[
    SCRIPT,
    Script {
        text: &[(4096, b" "), (1, b"\n")],
        ended: ended!(1, 0),
        ..OF_A_LINE
    },
    Script {
        text: &[(4097, b" "), (1, b"\n")],
        ended: Err(RunFault::TooLong),
        ..OF_A_LINE
    },
    Script {
        text: &[(4095, b" "), (1, b"\r\n")],
        ended: ended!(1, 0),
        ..OF_A_LINE
    },
    Script {
        text: &[(4096, b" "), (1, b"\r\n")],
        ended: Err(RunFault::TooLong),
        ..OF_A_LINE
    },
    Script {
        text: &[(4096, b" ")],
        ended: ended!(1, 0),
        ..OF_A_LINE
    },
    Script {
        text: &[(4097, b" ")],
        ended: Err(RunFault::TooLong),
        ..OF_A_LINE
    },
    Script {
        text: &[(1_000_000, b"\n")],
        ended: ended!(1_000_000, 0),
        ..OF_LINES
    },
    Script {
        text: &[(1_000_001, b"\n")],
        ended: Err(RunFault::TooLong),
        ..OF_LINES
    },
    Script {
        text: &[(u64::MAX, b"\n")],
        ended: Err(RunFault::TooLong),
        ..OF_LINES
    },
    Script {
        text: &[(u64::MAX, b"a")],
        ended: Err(RunFault::TooLong),
        ..OF_LINES
    },
    Script {
        name: "decides by the byte that passes a limit",
        text: &[(4097, b"a")],
        by: &[1],
        breaks: true,
        ended: Err(RunFault::TooLong),
        ..SCRIPT
    },
    Script {
        name: "decides by no byte before it",
        text: &[(4096, b"a")],
        by: &[1],
        breaks: true,
        ended: Err(RunFault::Read),
        ..SCRIPT
    },
    Script {
        name: "fails to read",
        text: &[(1, b"Frob\nFrob\n\nFrob")],
        by: &[1, 7, 100_000],
        breaks: true,
        ended: Err(RunFault::Read),
        notes: &[(2, b"error syntax\n")],
        ..SCRIPT
    },
    Script {
        name: "fails to read after a line",
        text: &[
            (1, b"GlobalAlloc 0x42 100\nGlobalLock 0x106\n"),
            (1, b"Write 0x01070000 4e45\n"),
        ],
        by: &[1, 7, 100_000],
        breaks: true,
        ended: Err(RunFault::Read),
        notes: &[(1, b"0106\n01070000\nok\n")],
        ..SCRIPT
    },
    Script {
        name: "fails to read in a line",
        text: &[
            (1, b"GlobalAlloc 0x42 100\nGlobalLock 0x106\n"),
            (1, b"Write 0x01070000 4e45\nRead 0x0107"),
        ],
        by: &[1],
        breaks: true,
        ended: Err(RunFault::Read),
        notes: &[(1, b"0106\n01070000\nok\n")],
        ..SCRIPT
    },
    Script {
        name: "replies to the longest line",
        text: &[(4096, b"a")],
        ended: ended!(1, 1),
        notes: &[(1, b"error syntax\n")],
        ..SCRIPT
    },
    Script {
        name: "replies to the lines before one that is too long",
        text: &[(1, b"Frob\nGlobalAlloc 2\nRead 0 1025\n"), (4097, b"a")],
        ended: Err(RunFault::TooLong),
        notes: &[(3, b"error syntax\n")],
        ..SCRIPT
    },
    Script {
        name: "replies to calls before a line that is too long",
        text: &[
            (1, b"Builtin KERNEL\nGetProcAddress 0x21 #5\n"),
            (1, b"GetProcAddress 0x21 GLOBALALLOC\nFrob\n"),
            (1, b"GlobalAlloc 2\nRead 0 1025\nr100 = Moved\n"),
            (4097, b"a"),
        ],
        ended: Err(RunFault::TooLong),
        notes: &[(1, b"0021\n00210005\n00000000\n"), (4, b"error syntax\n")],
        ..SCRIPT
    },
    Script {
        name: "replies to no line that is silent",
        text: &[(1, b"\n; a comment\n \t\n\t ;x\n\n")],
        ended: ended!(5, 0),
        ..SCRIPT
    },
    Script {
        name: "plays lines that end in CR and LF, and a last one that ends in none",
        text: &[
            (2, b"GlobalAlloc 0x42 32\r\n"),
            (1, b"Write 0x0107001e 0102\r\nWrite 0x0107001f 0102\r\n"),
            (1, b"Read 0x010f0000 2\r\nRead 0x0107001c 4"),
        ],
        ended: ended!(6, 6),
        notes: &[
            (1, b"0106\n010e\nok\nfault limit\n"),
            (1, b"bytes 0000\nbytes 00000102\n"),
        ],
        ..SCRIPT
    },
];
