//! Stores that lie: what they brought can be freed, and then all is as on a new machine.

use crate::stores::{Harm, Hostile, HostileMachine, Lie, Lying};
use std::alloc::{AllocError, Global};
use std::test::Fail;
use w16_play::files::store_of;
use w16_play::lines::{first_wrong, first_wrong_of, script_of};
use w16_play::texts::{ALL, IMPORTS, RESOURCE};
use w16_store::StoreFault;

/// A file is missing; all is 0; or the lowest bit is another.
static LIES: &[Lie] = &[
    (Err(StoreFault::Missing), 0, 0),
    (Ok(()), 0, 0),
    (Ok(()), u64::MAX, 1),
];

/// From here on no lie is told, and nothing is there; and so it is where none was told before.
const TOLD: &str = "LoadLibrary HONEST -> 0002\nWalk -> 00000000 00001000 free / end";

const UNTOLD: &str = "LoadLibrary HONEST -> fault store";

/// Whatever was loaded goes.
const FREES: &str = "\
FreeLibrary 0x21\nFreeLibrary 0x21\nFreeLibrary 0x22\nFreeLibrary 0x22\nFreeLibrary 0x22\nFreeLibrary 0x23\nFreeLibrary 0x23\nFreeLibrary 0x21";

/// Plays lines, and puts what they print after the output. Whether the run ends.
fn plays(
    machine: &mut HostileMachine,
    alloc: Global,
    lines: &str,
    output: &mut Vec<u8>,
) -> Result<bool, AllocError> {
    let script = script_of(alloc, lines)?;
    Ok(machine.play(&script, output).is_ok())
}

/// Plays lines, and forgets what they print. Whether the run ends.
fn ends(machine: &mut HostileMachine, alloc: Global, lines: &str) -> Result<bool, AllocError> {
    let mut output = Vec::new(alloc);
    plays(machine, alloc, lines, &mut output)
}

/// Plays the load that a row begins with: whether the run ends, and whether the load isn't refused.
fn loads(
    machine: &mut HostileMachine,
    alloc: Global,
    line: &str,
) -> Result<(bool, bool), AllocError> {
    let mut output = Vec::new(alloc);
    let is_ended = plays(machine, alloc, line, &mut output)?;
    Ok((is_ended, output.as_slice() == b"0021\n".as_slice()))
}

/// Plays the lines of a row, and frees what they loaded, which is nothing where the first line is refused. Whether each run ends.
fn is_played(machine: &mut HostileMachine, alloc: Global, lines: &str) -> Result<bool, AllocError> {
    let (load, rest) = lines.split_once("\n").unwrap_or((lines, ""));
    let (is_ended, is_loaded) = loads(machine, alloc, load)?;
    if !is_loaded {
        return Ok(is_ended);
    }
    Ok(is_ended && ends(machine, alloc, rest)? && ends(machine, alloc, FREES)?)
}

/// Whether a machine was told a lie. From here on it is told none.
fn was_lied_to(machine: &mut HostileMachine, alloc: Global) -> Result<bool, AllocError> {
    Ok(first_wrong(machine, alloc, UNTOLD)? != 0)
}

/// Whether all is as on a new machine after a row; none where no lie was told.
fn is_new_after(
    machine: &mut HostileMachine,
    alloc: Global,
    lines: &str,
) -> Result<Option<bool>, AllocError> {
    let played = is_played(machine, alloc, lines)?;
    if !was_lied_to(machine, alloc)? {
        return Ok(None);
    }
    let wrong = first_wrong_of(machine, alloc, &[TOLD, lines])?;
    Ok(Some(played && wrong.is_none()))
}

/// A machine over the samples that is told that many lies after that many questions.
fn lying(alloc: Global, lie: Lie, before: u32, lies: u32) -> Result<HostileMachine, AllocError> {
    Hostile::of(Harm::Lying(Lying::new(store_of(alloc, ALL)?, lie, before, lies))).machine(alloc)
}

/// Whether all is as on a new machine after a row of which that many lies were told after that many questions; none where none was told.
fn is_new(
    alloc: Global,
    lines: &str,
    lie: Lie,
    before: u32,
    lies: u32,
) -> Result<Option<bool>, AllocError> {
    let mut machine = lying(alloc, lie, before, lies)?;
    is_new_after(&mut machine, alloc, lines)
}

/// How many questions a row has, after each of which that many lies change nothing for good; none where they do.
fn questions(alloc: Global, lines: &str, lie: Lie, lies: u32) -> Result<Option<u32>, AllocError> {
    for before in 0..1000u32 {
        match is_new(alloc, lines, lie, before, lies)? {
            Some(true) => {}
            Some(false) => return Ok(None),
            None => return Ok(Some(before)),
        }
    }
    Ok(None)
}

/// One lie at each question, and nothing but lies from each on.
static TELLINGS: &[(&str, u32)] = &[(IMPORTS, 1), (RESOURCE, u32::MAX)];

#[test]
fn lies_are_undone(rt: HostRuntime) -> Result<(), Fail> {
    for lie in LIES {
        for (lines, lies) in TELLINGS {
            let asked = questions(rt.alloc(), lines, *lie, *lies)?;
            assert!(rt; asked.unwrap_or(0) > 10, "{lie:?}: {asked:?} in {lines}");
        }
    }
    Ok(())
}

/// Plays a load, and puts its reply after others, where it is refused otherwise than the last one. Whether the run ends.
fn put_reply(
    machine: &mut HostileMachine,
    alloc: Global,
    refusals: &mut Vec<u8>,
) -> Result<bool, AllocError> {
    let mut reply = Vec::new(alloc);
    let is_ended = plays(machine, alloc, "LoadModule TAPP.EXE", &mut reply)?;
    if reply.as_slice() != b"0021\n".as_slice() && !refusals.ends_with(&reply) {
        refusals.extend_from_slice(&reply)?;
    }
    Ok(is_ended)
}

/// The same. Whether the run ends, and a lie was told.
fn put_refusal(
    machine: &mut HostileMachine,
    alloc: Global,
    refusals: &mut Vec<u8>,
) -> Result<bool, AllocError> {
    let is_ended = put_reply(machine, alloc, refusals)?;
    Ok(is_ended && was_lied_to(machine, alloc)?)
}

/// The same on a machine that is told zeros once, after that many answers.
fn put_refusal_after(
    alloc: Global,
    before: u32,
    refusals: &mut Vec<u8>,
) -> Result<bool, AllocError> {
    let mut machine = lying(alloc, (Ok(()), 0, 0), before, 1)?;
    put_refusal(&mut machine, alloc, refusals)
}

/// The same after each answer in turn, until no zeros are told.
fn put_refusals(alloc: Global, refusals: &mut Vec<u8>) -> Result<(), AllocError> {
    for before in 0..1000u32 {
        if !put_refusal_after(alloc, before, refusals)? {
            break;
        }
    }
    Ok(())
}

/// A load reads the application's tables and then the library's, then finds values for both, and then their bytes: a lie about the first is a fault
/// of the file, 11, and one about the second a fault of what it imports, 20. A segment table of zeros asks for 65,536 bytes: no room, 0.
#[test]
fn lies_in_the_midst_of_a_load(rt: HostRuntime) -> Result<(), Fail> {
    let mut refusals = Vec::new(rt.alloc());
    put_refusals(rt.alloc(), &mut refusals)?;
    let wanted = b"000b\n0000\n000b\n0014\n0000\n0014\n000b\n0014\n000b\n0014\n".as_slice();
    assert!(rt; refusals.as_slice() == wanted, "{refusals:?}");
    Ok(())
}
