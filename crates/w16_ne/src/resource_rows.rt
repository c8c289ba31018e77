//! The rows of the resource table.
ghost use Rattle.std.specs.Prelude.{◌≡◌, ℕ, ◌<◌, ◌≤◌, ◌+◌, ◌*◌, ◌++◌, ◌∷◌, [], List, Option, All, Ok, OnOk, IfOk, IfErr};
ghost use Rattle.w16_store.specs.Files.{file_of};
ghost use Rattle.w16_ne.specs.declared.fault.NeFault.TheVariants.{BadTable};
ghost use Rattle.w16_store.specs.Later.{IsLater, RoseIf};
ghost use Rattle.w16_ne.specs.Reading.{Gives, GivesSuch, Tells, length_at, is_ne_device};
ghost use Rattle.w16_ne.specs.Names.{IsPiece};
ghost use Rattle.w16_ne.specs.Texts.{texts_behind};
ghost use Rattle.w16_ne.specs.Resources.{label_at, resource_at, resources_of, typed_at, all_typed, filled};
ghost use Rattle.w16_ne.specs.Rows.{HasLabel, label_in, entry_in, grouped, AreAdded, AreEntries, AreRows};

use crate::fault::NeFault;
use crate::name_piece::Piece;
use crate::reading::word;
use crate::resource_blocks::Block;
use crate::text_window::test_text;
use std::alloc::Allocator;
use w16_store::Store;

/// A resource as the table has it: its offset and length in units, its flags, and the word of its id.
#[derive(Clone, Copy, Debug, PartialEq, Eq)]
pub struct Row {
    pub place: u16,
    pub len: u16,
    pub flags: u16,
    pub id: u16,
}

/// The word of a block's type, and how many rows the block has.
#[derive(Clone, Copy, Debug, PartialEq, Eq)]
pub struct Group {
    pub kind: u16,
    pub count: u16,
}

/// The rows of all blocks, in the table's order, and the blocks that have any.
#[derive(Drop)]
pub struct Rows<A: Allocator> {
    pub groups: Vec<Group, A>,
    pub rows: Vec<Row, A>,
}

/// Tests that the text that a type word or an id word leads to is there whole.
#[tactic(auto, unfolding(crate::specs::Resources::label_at))]
fn test_label(texts: &[u8], word: u16) -> Result<(), NeFault>
    ensures exact { (file : Option (List ℕ)) (table : ℕ) → texts_behind file table ≡ Ok texts.now
        → Tells (λ _. label_in texts.now word) result (label_at file table word) }
    ensures inside { OnOk result (HasLabel texts.now word) }
    ensures fault { IfErr result (λ e. e ≡ BadTable) }
{
    if word >= 0x8000 {
        return Ok(());
    }
    test_text(texts, word, NeFault::BadTable)
}

/// The row at an offset of a file of so many bytes, whose id is there whole.
#[tactic(auto, unfolding(crate::specs::Resources::resource_at))]
fn row_at<A: Allocator + Copy, S: Store>(
    alloc: A,
    store: &mut S,
    name: &[u8],
    len: u64,
    texts: &[u8],
    at: u64,
    piece: &mut Piece<A>,
) -> Result<Row, NeFault>
    requires { at < len }
    ensures stays { IsLater (S.files store.old) (S.failures store.old) (S.files store.new) (S.failures store.new) }
    ensures device { IfErr result (RoseIf is_ne_device (S.failures store.old) (S.failures store.new)) }
    ensures exact { (table shift : ℕ) → S.is_honest → IsPiece (file_of (S.files store.old) name.now) len piece.old
        → texts_behind (file_of (S.files store.old) name.now) table ≡ Ok texts.now
        → Gives (entry_in texts.now shift) (file_of (S.files store.old) name.now)
        (S.failures store.old) (S.failures store.new) result (resource_at (file_of (S.files store.old) name.now) table shift at) }
    ensures kept { S.is_honest → IsPiece (file_of (S.files store.old) name.now) len piece.old
        → OnOk result (IsPiece (file_of (S.files store.old) name.now) len piece.new) }
    ensures inside { IfOk result (λ row. HasLabel texts.now row.id) }
{
    let mut bytes = [0u8; 12];
    piece.fill(alloc, store, name, len, at, &mut bytes)?;
    let id = word(&bytes, 6);
    test_label(texts, id)?;
    Ok(Row {
        place: word(&bytes, 0),
        len: word(&bytes, 2),
        flags: word(&bytes, 4),
        id,
    })
}

/// Adds the rows of a block.
#[tactic(auto, unfolding(crate::specs::Resources::resources_of))]
fn add_rows<A: Allocator + Copy, S: Store>(
    alloc: A,
    store: &mut S,
    name: &[u8],
    len: u64,
    texts: &[u8],
    block: Block,
    piece: &mut Piece<A>,
    rows: &mut Vec<Row, A>,
) -> Result<(), NeFault>
    requires { block.at + 12 * block.count ≤ len }
    ensures stays { IsLater (S.files store.old) (S.failures store.old) (S.files store.new) (S.failures store.new) }
    ensures device { IfErr result (RoseIf is_ne_device (S.failures store.old) (S.failures store.new)) }
    ensures exact { (table shift : ℕ) → S.is_honest → IsPiece (file_of (S.files store.old) name.now) len piece.old
        → texts_behind (file_of (S.files store.old) name.now) table ≡ Ok texts.now
        → GivesSuch (λ _ entries. AreEntries texts.now shift rows.old.items rows.new.items entries) (file_of (S.files store.old) name.now)
        (S.failures store.old) (S.failures store.new) result (resources_of (file_of (S.files store.old) name.now) table shift block) }
    ensures kept { S.is_honest → IsPiece (file_of (S.files store.old) name.now) len piece.old
        → OnOk result (IsPiece (file_of (S.files store.old) name.now) len piece.new) }
    ensures added { OnOk result (AreAdded texts.now block.count rows.old.items rows.new.items) }
{
    for i in 0..block.count {
        let at = block.at + 12 * u64::from(i);
        let row = row_at(alloc, store, name, len, texts, at, piece)?;
        rows.push(row)?;
    }
    Ok(())
}

/// Adds a block with its rows, where it has any.
#[tactic(auto, unfolding(crate::specs::Resources::typed_at))]
fn add_block<A: Allocator + Copy, S: Store>(
    alloc: A,
    store: &mut S,
    name: &[u8],
    len: u64,
    texts: &[u8],
    block: Block,
    piece: &mut Piece<A>,
    rows: &mut Rows<A>,
) -> Result<(), NeFault>
    requires { block.at + 12 * block.count ≤ len }
    ensures stays { IsLater (S.files store.old) (S.failures store.old) (S.files store.new) (S.failures store.new) }
    ensures device { IfErr result (RoseIf is_ne_device (S.failures store.old) (S.failures store.new)) }
    ensures exact { (table shift : ℕ) → S.is_honest → IsPiece (file_of (S.files store.old) name.now) len piece.old
        → texts_behind (file_of (S.files store.old) name.now) table ≡ Ok texts.now → AreRows texts.now rows.old
        → GivesSuch (λ _ t. grouped texts.now shift rows.new.groups.items rows.new.rows.items
        ≡ grouped texts.now shift rows.old.groups.items rows.old.rows.items ++ filled (t ∷ [])) (file_of (S.files store.old) name.now)
        (S.failures store.old) (S.failures store.new) result (typed_at (file_of (S.files store.old) name.now) table shift block) }
    ensures kept { S.is_honest → IsPiece (file_of (S.files store.old) name.now) len piece.old
        → OnOk result (IsPiece (file_of (S.files store.old) name.now) len piece.new) }
    ensures whole { AreRows texts.now rows.old → OnOk result (AreRows texts.now rows.new) }
{
    test_label(texts, block.kind)?;
    add_rows(alloc, store, name, len, texts, block, piece, &mut rows.rows)?;
    if block.count > 0 {
        let Block { kind, count, .. } = block;
        rows.groups.push(Group { kind, count })?;
    }
    Ok(())
}

/// The rows of all blocks, in a file of so many bytes.
pub fn all_rows<A: Allocator + Copy, S: Store>(
    alloc: A,
    store: &mut S,
    name: &[u8],
    len: u64,
    texts: &[u8],
    blocks: &[Block],
    at: u64,
) -> Result<Rows<A>, NeFault>
    requires place { at < len }
    requires ends { All (λ b. b.at + 12 * b.count ≤ len) blocks.now }
    ensures stays { IsLater (S.files store.old) (S.failures store.old) (S.files store.new) (S.failures store.new) }
    ensures device { IfErr result (RoseIf is_ne_device (S.failures store.old) (S.failures store.new)) }
    ensures exact { (table shift : ℕ) → S.is_honest → length_at (file_of (S.files store.old) name.now) ≡ Ok len
        → texts_behind (file_of (S.files store.old) name.now) table ≡ Ok texts.now
        → GivesSuch (λ rows types. grouped texts.now shift rows.groups.items rows.rows.items ≡ filled types) (file_of (S.files store.old) name.now)
        (S.failures store.old) (S.failures store.new) result (all_typed (file_of (S.files store.old) name.now) table shift blocks.now) }
    ensures whole { IfOk result (λ rows. AreRows texts.now rows) }
{
    let mut piece = Piece::read(alloc, store, name, len, at)?;
    let mut rows = Rows {
        groups: Vec::new(alloc),
        rows: Vec::new(alloc),
    };
    for block in blocks {
        add_block(
            alloc, store, name, len, texts, *block, &mut piece, &mut rows,
        )?;
    }
    Ok(rows)
}
