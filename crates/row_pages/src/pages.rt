//! Pages of bytes, in which byte strings lie one behind the other and never move.

ghost use Rattle.std.specs.Prelude.{◌≡◌, ◌+◌, ◌<◌, ◌≤◌, ◌++◌, [], ◌∷◌, length, IfOk, OnOk, OnErr};
ghost use Rattle.row_pages.specs.Lying.{Gains, Grows, Lies, greatest_offset, page_at, piece_at};
ghost use Rattle.tuple_core.specs.Encoding.{row_encoding};
ghost use Rattle.tuple_core.specs.Values.{FitsRow};

use std::alloc::{AllocError, Global};
use std::marker::Model;
use tuple_core::{Row, encode, weight};

#[cfg(test)]
mod tests;

/// The bytes of a page, in which short byte strings lie. A longer one has a page of its own.
pub const PAGE: usize = 65_536;

// The most bytes of a page: an offset in it has 32 bits.
const GREATEST_OFFSET: usize = u32::MAX as usize;

/// Where a byte string lies: from an offset of a page up to another.
#[derive(Clone, Copy, Debug)]
pub struct Spot {
    page: u32,
    start: u32,
    end: u32,
}

#[derive(Debug, Drop)]
struct Page {
    bytes: Vec<u8>,
}

impl Model for Page {
    ghost use Rattle.med_prelude.specs.Texts.{Bytes};

    ghost Value = { Bytes };

    ghost view = { λ p. p.bytes.items };
}

impl Page {
    fn len(&self) -> usize
        ensures { result ≡ length self.now }
    {
        self.bytes.len()
    }

    fn put(&mut self, piece: &[u8]) -> Result<(), AllocError>
        ensures gains { Gains self.old self.new }
        ensures ok { OnOk result (self.new ≡ self.old ++ piece.now) }
    {
        self.bytes.extend_from_slice(piece)?;
        Ok(())
    }

    fn put_row(&mut self, alloc: Global, front: &[u8], row: &Row) -> Result<(), AllocError>
        ensures gains { Gains self.old self.new }
        ensures ok { OnOk result (self.new ≡ self.old ++ (front.now ++ row_encoding row.now)) }
    {
        self.bytes.extend_from_slice(front)?;
        encode(alloc, row, &mut self.bytes)?;
        Ok(())
    }
}

/// Pages, of which contracts see the bytes. What was put stays where it is, whatever is put later.
#[derive(Debug, Drop)]
pub struct Pages {
    pages: Vec<Page>,
    // The page in which short byte strings are put now.
    open: u32,
}

impl Model for Pages {
    ghost use Rattle.std.specs.Prelude.{List};
    ghost use Rattle.med_prelude.specs.Texts.{Bytes};

    ghost Value = { List Bytes };

    ghost view = { λ p. p.pages.items };
}

impl Pages {
    /// No pages, which hold no memory.
    pub fn new(alloc: Global) -> Pages
        ensures { result ≡ [] }
    {
        Pages {
            pages: Vec::new(alloc),
            open: 0,
        }
    }

    fn add_page(&mut self, alloc: Global, room: usize) -> Result<u32, AllocError>
        ensures ok { OnOk result (self.new ≡ self.old ++ [] ∷ []) }
        ensures last { IfOk result (λ number. number ≡ length self.old) }
        ensures err { OnErr result (self.new ≡ self.old) }
    {
        let number = self.pages.len();
        if number > u32::MAX as usize {
            return Err(AllocError);
        }
        let number = number as u32;
        let bytes = Vec::with_capacity(alloc, room)?;
        self.pages.push(Page { bytes })?;
        Ok(number)
    }

    // The number of a page that has so many bytes free: the open one, or a new one.
    fn page_for(&mut self, alloc: Global, size: usize) -> Result<u32, AllocError>
        ensures grows { Grows self.old self.new }
        ensures within { IfOk result (λ number. number < length self.new) }
        ensures room { IfOk result (λ number. length (page_at self.new number) + size ≤ greatest_offset) }
    {
        if size > GREATEST_OFFSET {
            return Err(AllocError);
        }
        if size > PAGE {
            return self.add_page(alloc, size);
        }
        if let Some(page) = self.pages.get(self.open as usize) {
            if page.len() <= PAGE - size {
                return Ok(self.open);
            }
        }
        self.open = self.add_page(alloc, PAGE)?;
        Ok(self.open)
    }

    /// Puts a byte string behind those that are there, and tells where it lies. Where memory runs out, or at 2^32
    /// pages or bytes of one byte string, nothing is told, and what lies there stays where it is.
    pub fn put(&mut self, alloc: Global, piece: &[u8]) -> Result<Spot, AllocError>
        ensures grows { Grows self.old self.new }
        ensures lies { IfOk result (Lies self.new) }
        ensures piece { IfOk result (λ spot. piece_at self.new spot ≡ piece.now) }
    {
        let number = self.page_for(alloc, piece.len())?;
        let page = &mut self.pages[number as usize];
        let start = page.len();
        page.put(piece)?;
        Ok(Spot {
            page: number,
            start: start as u32,
            end: page.len() as u32,
        })
    }

    /// Puts some bytes and directly behind them the encoding of a row, as one byte string.
    pub fn put_row(&mut self, alloc: Global, front: &[u8], row: &Row) -> Result<Spot, AllocError>
        ensures grows { Grows self.old self.new }
        ensures lies { IfOk result (Lies self.new) }
        ensures piece { IfOk result (λ spot. piece_at self.new spot ≡ front.now ++ row_encoding row.now) }
        ensures fits { FitsRow row.now }
    {
        let number = self.page_for(alloc, front.len() + weight(row) as usize)?;
        let page = &mut self.pages[number as usize];
        let start = page.len();
        page.put_row(alloc, front, row)?;
        Ok(Spot {
            page: number,
            start: start as u32,
            end: page.len() as u32,
        })
    }

    /// The byte string at a spot.
    pub fn piece(&self, spot: Spot) -> &[u8]
        requires { Lies self.now spot }
        ensures { result.now ≡ piece_at self.now spot }
    {
        let page = &self.pages[spot.page as usize];
        &page.bytes[spot.start as usize..spot.end as usize]
    }
}
