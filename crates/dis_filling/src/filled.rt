//! Where items of the initial data may stand (dis(6), "Data section").

ghost use Rattle.std.specs.Prelude.{◌≡◌, ◌+◌, ◌/◌, ◌%◌, ◌<◌, ◌^◌, ◌==◌, ◌&&◌, ◌≤◌, length, drop, reverse, OnOk};
ghost use Rattle.dis_file.specs.References.{marks};
ghost use Rattle.byteorder.specs.Endian.{big_number};
ghost use Rattle.dis_format.specs.Loading.{size_of, content_size, extent, map_of, is_reference, begins_reference, all_plain, room};
ghost use Rattle.dis_format.specs.Loading.{opening, array_at, address_of, entered, leaves_one, suits, offset_stands};
ghost use Rattle.dis_format.specs.Loading.{index_stands, is_none, put, enter, leave, made, after_kind, after};
ghost use Rattle.dis_filling.specs.Filling.{loading_of, IsLongEnough, IsReadable};

use byteorder::{BigEndian, ByteOrder};
use dis_file::{Item, TypeDesc};
use dis_format::{Block, ItemKind, Place, Standing, item_kind};
use std::alloc::{AllocError, Global};

/// What the items so far did: where the next one goes, where items went before each array that was entered, and which
/// strings and arrays stand, the newest last.
#[derive(Drop)]
pub struct Filled {
    pub here: Place,
    pub back: Vec<Place>,
    pub stands: Vec<Standing>,
}

/// The size of a type in bytes.
pub fn size_of(types: &[TypeDesc], number: u32) -> u32
    ensures { result ≡ size_of types.now number }
{
    match types.get(number as usize) {
        Some(desc) => desc.size,
        None => 0,
    }
}

/// How many bytes of the file an item's content takes.
pub fn content_size(kind: ItemKind, count: u32) -> usize
    ensures { result ≡ content_size kind count }
{
    let count = count as usize;
    match kind {
        ItemKind::Bytes | ItemKind::Text => count,
        ItemKind::Words => 4 * count,
        ItemKind::Reals | ItemKind::Bigs => 8 * count,
        ItemKind::Array => 8,
        ItemKind::Enter => 4,
        ItemKind::Leave => 0,
    }
}

/// How many bytes of its block an item takes.
fn extent(kind: ItemKind, count: u32) -> u64
    ensures { result ≡ extent kind count }
{
    let count = u64::from(count);
    match kind {
        ItemKind::Bytes => count,
        ItemKind::Words => 4 * count,
        ItemKind::Reals | ItemKind::Bigs => 8 * count,
        ItemKind::Text | ItemKind::Array | ItemKind::Enter => 4,
        ItemKind::Leave => 0,
    }
}

/// How many bytes there are from a place to the end of its block.
fn room(place: Place) -> u64
    ensures { result ≡ room place }
{
    u64::from(place.block.size) * u64::from(place.block.length.saturating_sub(place.index))
}

/// Whether the map of a type marks this word.
fn marks(types: &[TypeDesc], number: u32, word: u32) -> bool
    ensures { result ≡ marks (map_of types.now number) word }
{
    match types.get(number as usize) {
        Some(desc) => desc.is_reference(word),
        None => false,
    }
}

/// The word that has the byte at this offset, counted from the start of its element.
fn word_of(block: Block, offset: u64) -> u32
    requires { 0 < block.size }
    ensures { result ≡ offset % block.size / 4 }
{
    (offset % u64::from(block.size) / 4) as u32
}

/// Whether the byte at this offset is one of a reference word.
fn is_reference(types: &[TypeDesc], block: Block, offset: u64) -> bool
    ensures { result ≡ is_reference types.now block offset }
{
    if block.size == 0 {
        return false;
    }
    marks(types, block.kind, word_of(block, offset))
}

/// Whether a reference word begins at the offset.
fn begins_reference(types: &[TypeDesc], block: Block, offset: u64) -> bool
    ensures { result ≡ begins_reference types.now block offset }
{
    if !is_reference(types, block, offset) {
        return false;
    }
    offset % u64::from(block.size) % 4 == 0
}

/// Whether none of so many bytes is one of a reference word.
fn all_plain(types: &[TypeDesc], block: Block, offset: u64, count: u64) -> bool
    requires { offset + count < 2 ^ 64 }
    ensures { result ≡ all_plain types.now block offset count }
{
    for at in offset..offset + count {
        if is_reference(types, block, at) {
            return false;
        }
    }
    true
}

/// Whether this stands at an address of a block.
fn is_at(standing: Standing, block: usize, at: u64) -> bool
    ensures { result ≡ (standing.block == block && standing.at == at) }
{
    standing.block == block && standing.at == at
}

/// The array that stands at this address of a block: the newest string or array there decides.
#[tactic(auto, using(crate::proofs::Stands::newest_of))]
fn array_at(stands: &[Standing], block: usize, at: u64) -> Option<Block>
    ensures { result ≡ array_at (reverse stands.now) block at }
{
    let mut older = stands;
    while let Some((last, front)) = older.split_last() {
        if is_at(*last, block, at) {
            return last.array;
        }
        older = front;
    }
    None
}

/// Where an offset from a place lies, in bytes from the start of the block.
fn address_of(place: Place, offset: u32) -> u64
    ensures { result ≡ address_of place offset }
{
    u64::from(place.index) * u64::from(place.block.size) + u64::from(offset)
}

/// The length that stands behind an array's type.
fn length_in(content: &[u8]) -> u32
    requires { 8 ≤ length content.now }
    ensures { result ≡ big_number 4 (drop 4 content.now) }
{
    BigEndian::read_u32(&content[4..])
}

impl Filled {
    /// Items go into the module's data.
    pub fn opening(alloc: Global, data_size: u32) -> Filled
        ensures { loading_of result ≡ opening data_size }
    {
        let data = Block {
            number: 0,
            kind: 0,
            size: data_size,
            length: 1,
        };
        Filled {
            here: Place {
                block: data,
                index: 0,
            },
            back: Vec::new(alloc),
            stands: Vec::new(alloc),
        }
    }

    /// The array at an offset from where items go.
    pub fn entered(&self, offset: u32) -> Option<Block>
        ensures { result ≡ entered (loading_of self.now) offset }
    {
        let at = address_of(self.here, offset);
        array_at(self.stands.as_slice(), self.here.block.number, at)
    }

    /// An array is left only where one was entered.
    pub fn leaves_one(&self, kind: ItemKind) -> bool
        ensures { result ≡ leaves_one (loading_of self.now) kind }
    {
        match kind {
            ItemKind::Leave => !self.is_closed(),
            _ => true,
        }
    }

    /// Whether each array that was entered has been left.
    pub fn is_closed(&self) -> bool
        ensures { result ≡ is_none (loading_of self.now).back }
    {
        self.back.as_slice().is_empty()
    }

    /// A string or an array stands on a reference word, other content on none; what is entered is an array.
    fn suits(&self, types: &[TypeDesc], kind: ItemKind, count: u32, offset: u32) -> bool
        ensures { result ≡ suits types.now (loading_of self.now) kind count offset }
    {
        let at = u64::from(offset);
        match kind {
            ItemKind::Text | ItemKind::Array => begins_reference(types, self.here.block, at),
            ItemKind::Enter => self.entered(offset).is_some(),
            ItemKind::Leave => true,
            _ => all_plain(types, self.here.block, at, extent(kind, count)),
        }
    }

    /// Whether an item may stand at the offset.
    pub fn takes(&self, types: &[TypeDesc], kind: ItemKind, count: u32, offset: u32) -> bool
        ensures { result ≡ offset_stands types.now (loading_of self.now) kind count offset }
    {
        u64::from(offset) + extent(kind, count) <= room(self.here)
            && self.suits(types, kind, count, offset)
    }

    /// Whether the array at the offset has the element.
    pub fn has_element(&self, offset: u32, index: u32) -> bool
        ensures { result ≡ index_stands (entered (loading_of self.now) offset) index }
    {
        match self.entered(offset) {
            Some(array) => index < array.length,
            None => false,
        }
    }

    /// A string or an array is put on its word.
    fn put(&mut self, offset: u32, array: Option<Block>) -> Result<(), AllocError>
        ensures { OnOk result (loading_of self.new ≡ put (loading_of self.old) offset array) }
    {
        let at = address_of(self.here, offset);
        self.stands.push(Standing {
            block: self.here.block.number,
            at,
            array,
        })?;
        Ok(())
    }

    /// Items go into the array at the offset, from an element on.
    fn enter(&mut self, offset: u32, index: u32) -> Result<(), AllocError>
        ensures { OnOk result (loading_of self.new ≡ enter (loading_of self.old) (entered (loading_of self.old) offset) index) }
    {
        if let Some(block) = self.entered(offset) {
            self.back.push(self.here)?;
            self.here = Place { block, index };
        }
        Ok(())
    }

    /// Items go where they went before the array was entered.
    fn leave(&mut self)
        ensures { loading_of self.new ≡ leave (loading_of self.old) (loading_of self.old).back }
    {
        if let Some(place) = self.back.pop() {
            self.here = place;
        }
    }

    /// The array that an item's content makes.
    fn made(&self, types: &[TypeDesc], content: &[u8]) -> Block
        requires { 8 ≤ length content.now }
        ensures { result ≡ made types.now (loading_of self.now) content.now }
    {
        let kind = BigEndian::read_u32(content);
        Block {
            number: self.stands.as_slice().len() + 1,
            kind,
            size: size_of(types, kind),
            length: length_in(content),
        }
    }

    /// What an item of a kind does.
    fn add(
        &mut self,
        types: &[TypeDesc],
        kind: ItemKind,
        offset: u32,
        content: &[u8],
    ) -> Result<(), AllocError>
        requires { IsLongEnough kind (length content.now) }
        ensures { OnOk result (loading_of self.new ≡ after_kind types.now (loading_of self.old) kind offset content.now) }
    {
        match kind {
            ItemKind::Text => self.put(offset, None),
            ItemKind::Array => {
                let array = self.made(types, content);
                self.put(offset, Some(array))
            }
            ItemKind::Enter => self.enter(offset, BigEndian::read_u32(content)),
            ItemKind::Leave => {
                self.leave();
                Ok(())
            }
            _ => Ok(()),
        }
    }

    /// What an item does.
    #[tactic(auto, unfolding(dis_format::specs::Loading::after))]
    pub fn take_in(&mut self, types: &[TypeDesc], item: &Item) -> Result<(), AllocError>
        requires { IsReadable item.now }
        ensures { OnOk result (loading_of self.new ≡ after types.now (loading_of self.old) item.now) }
    {
        match item_kind(item.kind) {
            Some(kind) => self.add(types, kind, item.offset, item.content.as_slice()),
            None => Ok(()),
        }
    }
}
