//! How a table is written to its end: what stands behind its blocks.

ghost use Rattle.std.specs.Prelude.{◌≡◌, IfOk, IsErrOf};
ghost use Rattle.byteorder.specs.Endian.{big_bytes};
ghost use Rattle.vl_table.specs.declared.writer.write_fail.WriteFail.TheVariants as why;
ghost use Rattle.vl_table.specs.writer.Framing.{AreBehind, IsRest, IsTooLong};

use crate::body::{Footer, TableShape};
use crate::writer::blocks_writer::BlocksWriter;
use crate::writer::framed::Framed;
use crate::writer::summary::Summary;
use crate::writer::tail::Tail;
use crate::writer::write_fail::WriteFail;
use byteorder::{BigEndian, ByteOrder};
use std::alloc::Global;
use vl_model::TABLE_FORMAT;

// The bytes of the footer's place at the end.
const PLACE_BYTES: u64 = 8;

// The longest table that is written.
const MAX_TABLE_BYTES: u64 = u32::MAX as u64;

/// What stands behind the blocks of a table.
#[derive(Drop)]
pub struct Rest {
    pub index: Framed,
    pub filter: Framed,
    // The filter's bits.
    pub bits: Vec<u8>,
    pub footer: Footer,
    // The footer's frame.
    pub foot: Framed,
}

impl Rest {
    /// Behind these blocks, of which none is open. No frame alone can be too long, since the blocks are not.
    pub fn of(alloc: Global, blocks: &BlocksWriter, summary: Summary) -> Result<Self, WriteFail>
        ensures rest { IfOk result (IsRest blocks.now summary) }
        ensures too_long { IsErrOf result why.TooLong → IsTooLong blocks.now summary }
    {
        let index = Framed::index(alloc, blocks)?;
        let place = blocks.place + index.at.length as u64;
        let (filter, bits) = Framed::filter(alloc, blocks.number, place, &summary.keys)?;
        let place = place + filter.at.length as u64;
        let footer = summary.footer(alloc, filter.at, index.at)?;
        let foot = Framed::footer(alloc, blocks.number, place, &footer)?;
        if foot.at.place + foot.at.length as u64 + PLACE_BYTES > MAX_TABLE_BYTES {
            return Err(WriteFail::TooLong);
        }
        Ok(Rest {
            index,
            filter,
            bits,
            footer,
            foot,
        })
    }

    /// These frames behind that of the last block, and what is known of the table.
    pub fn behind(self, block: Vec<u8>, blocks: BlocksWriter) -> Tail
        ensures { AreBehind self block.items blocks result }
    {
        let place = self.foot.at.place;
        Tail {
            block,
            index: self.index.bytes,
            filter: self.filter.bytes,
            footer: self.foot.bytes,
            place: place_bytes(place),
            shape: TableShape {
                format: TABLE_FORMAT,
                number: blocks.number,
                footer: self.footer,
                footer_place: place,
                blocks: blocks.closed,
                filter: self.bits,
            },
        }
    }
}

// A place, as the last eight bytes of a table say it.
fn place_bytes(place: u64) -> [u8; 8]
    ensures { result ≡ big_bytes 8 place }
{
    let mut bytes = [0; 8];
    BigEndian::write_u64(&mut bytes, place);
    bytes
}
