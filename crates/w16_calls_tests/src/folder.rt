//! Module files in a folder of the system.

use std::fs;
use std::test::Fail;
use w16_play::files::file_of;
use w16_play::lines::first_wrong;
use w16_play::machine::Machine;
use w16_play::texts::{ALL, FIRST_LOAD, RESOURCE};
use w16_store::DirStore;

/// Puts the file that a part of a text says into the folder.
fn write_file(rt: &HostRuntime, part: &str) -> Result<(), Fail> {
    let file = file_of(rt.alloc(), part)?;
    let path = format!(in rt.alloc(); "module_files/{}", file.name)?;
    fs::write(rt, path.as_str(), file.bytes.as_slice())?;
    Ok(())
}

/// Puts the files of a text into a folder of their own.
fn make_folder(rt: &HostRuntime, files: &str) -> Result<(), Fail> {
    let _ = fs::remove_dir_all(rt, "module_files");
    fs::create_dir_all(rt, "module_files")?;
    for part in files.split(", ") {
        write_file(rt, part)?;
    }
    Ok(())
}

/// The number of the first wrong line over that folder.
fn first_wrong_in_folder(rt: &HostRuntime, lines: &str) -> Result<usize, Fail> {
    let store = DirStore::from_folder(rt, rt.alloc(), "module_files")?;
    let mut machine = Machine::new(rt.alloc(), 4096, 16, store)?;
    Ok(first_wrong(&mut machine, rt.alloc(), lines)?)
}

/// The number of the first wrong line of two texts, each played on a machine of its own.
fn first_wrong_of_both(rt: &HostRuntime) -> Result<[usize; 2], Fail> {
    let first = first_wrong_in_folder(rt, FIRST_LOAD)?;
    let second = first_wrong_in_folder(rt, RESOURCE)?;
    Ok([first, second])
}

/// The same over a folder with the samples, which is made for it.
fn first_wrong_of_samples(rt: &HostRuntime) -> Result<[usize; 2], Fail> {
    make_folder(rt, ALL)?;
    let wrong = first_wrong_of_both(rt)?;
    fs::remove_dir_all(rt, "module_files")?;
    Ok(wrong)
}

#[test]
fn a_folder_is_loaded_from(rt: HostRuntime) -> Result<(), Fail> {
    let wrong = first_wrong_of_samples(&rt)?;
    assert!(rt; wrong == [0; 2], "lines {wrong:?}");
    Ok(())
}
