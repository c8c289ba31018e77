//! What replies are printed as.

use crate::host::{Host, PLAN, Part, Plan};
use w16_kernel::Reply::{self, *};
use w16_loading::FetchFault;
use w16_model::FarFault;
use w16_script::{RunFault, print_error, print_reply};

/// Replies, and what is printed of them.
static REPLIES: &[(Reply<'_>, &[Part<'_>])] = &[
    (Word(0), &[(1, b"0000\n")]),
    (Word(0xa1F), &[(1, b"0a1f\n")]),
    (Dword(0x0107_0000), &[(1, b"01070000\n")]),
    (Dword(0xffff_ffff), &[(1, b"ffffffff\n")]),
    (Done, &[(1, b"ok\n")]),
    (Walk(2), &[(1, b"end\n")]),
    (Bytes(&[]), &[(1, b"bytes\n")]),
    (Bytes(&[0x4e, 0x05, 0xab]), &[(1, b"bytes 4e05ab\n")]),
    (
        Bytes(&[0x5a; 1024]),
        &[(1, b"bytes "), (1024, b"5a"), (1, b"\n")],
    ),
    (Fault(FarFault::BadSelector), &[(1, b"fault selector\n")]),
    (Fault(FarFault::NotPresent), &[(1, b"fault notpresent\n")]),
    (Fault(FarFault::Limit), &[(1, b"fault limit\n")]),
    (Fault(FarFault::ReadOnly), &[(1, b"fault readonly\n")]),
    (Failed(FetchFault::NoRoom), &[(1, b"fault room\n")]),
    (Failed(FetchFault::Store), &[(1, b"fault store\n")]),
    (Failed(FetchFault::Damaged), &[(1, b"fault damaged\n")]),
];

/// Whether a reply is printed as these parts.
fn is_printed(reply: &Reply<'_>, parts: &[Part<'_>]) -> bool {
    let host = Host::new(PLAN);
    print_reply(&mut &host, reply).is_ok() && host.has_noted(parts)
}

#[test]
fn prints_each_reply(rt: HostRuntime) {
    for (at, (reply, parts)) in REPLIES.iter().enumerate() {
        assert!(rt; is_printed(reply, parts), "at {at}");
    }
}

/// What the reply to an access is.
const FAULT: &[u8] = b"fault notpresent\n";

/// Whether a writer that takes that many bytes, and that many at once, gets just these of it, and then fails.
fn stops_after(room: usize, room_at_once: usize) -> bool {
    let host = Host::new(Plan {
        room,
        room_at_once,
        ..PLAN
    });
    print_reply(&mut &host, &Reply::Fault(FarFault::NotPresent)).is_err()
        && host.has_noted(&[(1, &FAULT[..room.min(FAULT.len())])])
}

/// How many bytes are taken at once where a writer that takes that many gets others, or doesn't fail.
fn first_wrong(room: usize) -> Option<usize> {
    for at_once in [1, 3, 64] {
        if !stops_after(room, at_once) {
            return Some(at_once);
        }
    }
    None
}

#[test]
fn fails_after_each_number_of_bytes(rt: HostRuntime) {
    for room in 0..FAULT.len() {
        let wrong = first_wrong(room);
        assert!(rt; wrong.is_none(), "{room} by {wrong:?}");
    }
}

/// Whether the reply to a bad line is whole where one byte is taken at once.
fn errors_are_printed_byte_by_byte() -> bool {
    let host = Host::new(Plan {
        room: 64,
        room_at_once: 1,
        ..PLAN
    });
    print_error(&mut &host).is_ok() && host.has_noted(&[(1, b"error syntax\n")])
}

#[test]
fn prints_errors_byte_by_byte(rt: HostRuntime) {
    assert!(rt; errors_are_printed_byte_by_byte());
}

/// The exit status of each fault.
static STATUSES: &[(RunFault, u8)] = &[
    (RunFault::Read, 1),
    (RunFault::Write, 1),
    (RunFault::Memory, 3),
    (RunFault::TooLong, 4),
];

#[test]
fn has_a_status_for_each_fault(rt: HostRuntime) {
    for (fault, status) in STATUSES {
        assert!(rt; fault.status() == *status, "{fault:?}");
    }
}
