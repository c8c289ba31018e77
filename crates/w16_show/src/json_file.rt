//! What is printed of a file as JSON.
ghost use Rattle.std.specs.Prelude.{◌≡◌, ℕ, List, Some, Ok, Err, IfOk};
ghost use Rattle.w16_ne.specs.Parts.{parts_at};
ghost use Rattle.w16_show.specs.Plain.{Makes, Prints, SendsJson};
ghost use Rattle.w16_show.specs.Json.{module_json, whole_json, fault_json, is_sound};
ghost use Rattle.w16_show.specs.Report.{IsOpened, verdict_of, json_of};

use crate::json_header::header_value;
use crate::json_segments::{send_imports, send_segments};
use crate::json_tables::{send_entries, send_names, send_references, send_resources};
use crate::json_values::{send_value, word_value};
use crate::open::{FILE, module_of, store_of, verdict};
use crate::verdict::Verdict;
use crate::words::{file_part_word, push_fault};
use serde_json::{Value, json};
use std::alloc::{AllocError, Global};
use std::io::{self, Write};
use w16_ne::{Module, PartFault};
use w16_reloc::Scratch;
use w16_store::MemStore;

/// Whether a verdict finds nothing wrong.
fn is_sound(verdict: &Verdict) -> bool
    ensures { result ≡ is_sound verdict.now }
{
    matches!(verdict, Verdict::Sound)
}

/// Sends what is said of a module.
fn send_module<W: Write>(
    alloc: Global,
    writer: &mut W,
    file: &[u8],
    store: &mut MemStore,
    tables: &Module,
    scratch: &mut Scratch,
) -> io::Result<()>
    ensures { IsOpened store.old FILE.now file.now tables.now → SendsJson result (W.contents writer.old) (W.contents writer.new) (module_json file.now tables.now) }
{
    writer.write_all(b"{\"entries\":")?;
    send_entries(alloc, writer, tables)?;
    writer.write_all(b",\"header\":")?;
    send_value(alloc, writer, false, &header_value(alloc, tables)?)?;
    writer.write_all(b",\"imports\":")?;
    send_imports(alloc, writer, file, store, FILE, tables, scratch)?;
    writer.write_all(b",\"names\":")?;
    send_names(alloc, writer, tables)?;
    writer.write_all(b",\"references\":")?;
    send_references(alloc, writer, tables)?;
    writer.write_all(b",\"resources\":")?;
    send_resources(alloc, writer, tables)?;
    writer.write_all(b",\"segments\":")?;
    send_segments(alloc, writer, file, store, FILE, tables, scratch)?;
    writer.write_all(b"}")
}

/// Sends what is said of a file whose module is accepted.
fn send_whole<W: Write>(
    alloc: Global,
    writer: &mut W,
    name: &str,
    file: &[u8],
    store: &mut MemStore,
    tables: &Module,
    sound: bool,
    scratch: &mut Scratch,
) -> io::Result<()>
    ensures { IsOpened store.old FILE.now file.now tables.now → SendsJson result (W.contents writer.old) (W.contents writer.new) (whole_json name.now file.now tables.now sound) }
{
    writer.write_all(b"{\"fault\":")?;
    writer.write_all(b"null")?;
    writer.write_all(b",\"file\":")?;
    send_value(alloc, writer, false, &word_value(alloc, name)?)?;
    writer.write_all(b",\"module\":")?;
    send_module(alloc, writer, file, store, tables, scratch)?;
    writer.write_all(b",\"sound\":")?;
    send_value(alloc, writer, false, &Value::Bool(sound))?;
    writer.write_all(b"}")
}

/// What is said of a file whose module isn't accepted.
fn fault_value(alloc: Global, name: &str, e: PartFault) -> Result<Value, AllocError>
    ensures { Makes result (fault_json name.now e) }
{
    let mut word = String::new(alloc);
    push_fault(&mut word, e.fault)?;
    let word = Value::String(word);
    let file = word_value(alloc, name)?;
    let part = word_value(alloc, file_part_word(e.part))?;
    json!(in alloc; {"fault": word, "file": file, "part": part})
}

/// Sends what is printed of a file whose module is accepted.
fn show_module<W: Write>(
    alloc: Global,
    writer: &mut W,
    name: &str,
    file: &[u8],
    store: &mut MemStore,
    tables: &Module,
) -> io::Result<Verdict>
    ensures text { IsOpened store.old FILE.now file.now tables.now
        → IfOk result (λ _. Prints (W.contents writer.old) (W.contents writer.new) (json_of name.now file.now (Ok tables.now))) }
    ensures verdict { IsOpened store.old FILE.now file.now tables.now
        → IfOk result (λ verdict. verdict ≡ verdict_of file.now (Ok tables.now)) }
{
    let mut scratch = Scratch::new(alloc)?;
    let verdict = verdict(store, FILE, tables, &mut scratch);
    let sound = is_sound(&verdict);
    send_whole(
        alloc,
        writer,
        name,
        file,
        store,
        tables,
        sound,
        &mut scratch,
    )?;
    Ok(verdict)
}

/// Sends what is printed of a file whose module isn't accepted.
fn show_fault<W: Write>(
    alloc: Global,
    writer: &mut W,
    name: &str,
    e: PartFault,
) -> io::Result<Verdict>
    ensures text { (file : List ℕ) → IfOk result (λ _. Prints (W.contents writer.old) (W.contents writer.new) (json_of name.now file (Err e))) }
    ensures verdict { IfOk result (λ verdict. verdict ≡ Verdict.NotAccepted e) }
{
    send_value(alloc, writer, false, &fault_value(alloc, name, e)?)?;
    Ok(Verdict::NotAccepted(e))
}

/// Prints a module file as JSON, in one line without its end: what `show_text` prints of all its parts, and nothing but the first fault, with its part,
/// of a file whose module isn't accepted. The text, which goes to the writer piece by piece, reads back as exactly that. The verdict is answered. An error
/// is the writer's, or want of memory.
pub fn show_json<W: Write>(
    alloc: Global,
    writer: &mut W,
    name: &str,
    file: &[u8],
) -> io::Result<Verdict>
    ensures text { IfOk result (λ _. Prints (W.contents writer.old) (W.contents writer.new) (json_of name.now file.now (parts_at (Some file.now)))) }
    ensures verdict { IfOk result (λ verdict. verdict ≡ verdict_of file.now (parts_at (Some file.now))) }
{
    let mut store = store_of(alloc, file)?;
    match module_of(alloc, &mut store, FILE)? {
        Ok(tables) => show_module(alloc, writer, name, file, &mut store, &tables),
        Err(e) => show_fault(alloc, writer, name, e),
    }
}
