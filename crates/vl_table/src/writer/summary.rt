ghost use Rattle.std.specs.Prelude.{◌≡◌, ◌≤◌, ◌↔◌, length, ◌++◌, ◌∷◌, [], Some, if◌then◌else◌, List, IfOk, IsTrue, OnOk};
ghost use Rattle.std.specs.Ordering.{eq_by_cmp};
ghost use Rattle.vl_filter.specs.Places.{hashes_of};
ghost use Rattle.vl_model.specs.Formats.{table_format};
ghost use Rattle.vl_model.specs.Keys.{key_cmp};
ghost use Rattle.vl_model.specs.declared.entry.Entry.{Entry};
ghost use Rattle.vl_table.specs.body.Blocks.{entries};
ghost use Rattle.vl_model.specs.Cutting.{with_point};
ghost use Rattle.vl_table.specs.body.Footer.{foot_of};
ghost use Rattle.vl_table.specs.body.Lists.{IsNext, last_item};
ghost use Rattle.vl_table.specs.writer.PointSums.{points_in};
ghost use Rattle.vl_table.specs.writer.Writing.{Sums};

use crate::body::{Footer, FramePlace};
use crate::writer::point_sums::{PointSums, add_point, points_of};
use std::alloc::{AllocError, Global};
use std::collections::BTreeMap;
use vl_filter::Hashes;
use vl_model::{Body, Entry, Key, Place, key_order, place_order};

/// What a table's footer will say of the entries so far.
#[derive(Drop)]
pub struct Summary {
    pub first: Key,
    // The key and the version of the last entry.
    pub last: Key,
    pub last_version: u64,
    pub count: u64,
    pub greatest: u64,
    pub points: PointSums,
    // The hashes of the keys, each once.
    pub keys: Vec<Hashes>,
}

impl Summary {
    /// Of one entry.
    pub fn of(alloc: Global, entry: &Entry) -> Result<Self, AllocError>
        ensures { IfOk result (λ s. Sums s (entry.now ∷ [])) }
    {
        let mut points = BTreeMap::new(alloc);
        note(&mut points, &entry.body)?;
        let mut keys = Vec::new(alloc);
        keys.push(Hashes::of(entry.key.as_slice()))?;
        Ok(Summary {
            first: entry.key.share()?,
            last: entry.key.share()?,
            last_version: entry.version,
            count: 1,
            greatest: entry.version,
            points,
            keys,
        })
    }

    /// Whether an entry has its place behind the others.
    pub fn is_behind(&self, entry: &Entry) -> bool
        ensures { (es : List Entry) → 1 ≤ length es → Sums self.now es
            → (IsTrue result ↔ IsNext (entries table_format) (last_item es) entry.now) }
    {
        let last = Place {
            key: self.last.as_slice(),
            version: self.last_version,
        };
        place_order(&last, &entry.place()).is_lt()
    }

    /// Of one entry more, behind the others.
    pub fn add(&mut self, entry: &Entry) -> Result<(), AllocError>
        ensures { (es : List Entry) → 1 ≤ length es → Sums self.old es
            → OnOk result (Sums self.new (es ++ entry.now ∷ [])) }
    {
        if self.count == u64::MAX {
            return Err(AllocError);
        }
        note(&mut self.points, &entry.body)?;
        note_key(&mut self.keys, self.last.as_slice(), entry.key.as_slice())?;
        self.last = entry.key.share()?;
        self.last_version = entry.version;
        self.count += 1;
        self.greatest = self.greatest.max(entry.version);
        Ok(())
    }

    /// The footer, once filter and index have their places and lengths.
    pub fn footer(
        self,
        alloc: Global,
        filter: FramePlace,
        index: FramePlace,
    ) -> Result<Footer, AllocError>
        ensures { IfOk result (λ footer. foot_of footer ≡ record {
          head = record {
            filter = Some filter;
            index_place = index.place;
            index_length = index.length;
            count = self.count;
            greatest = self.greatest;
            first = self.first;
            last = self.last;
          };
          points = points_in self.points;
        }) }
    {
        let points = points_of(alloc, &self.points)?;
        Ok(Footer {
            filter: Some(filter),
            index_place: index.place,
            index_length: index.length,
            count: self.count,
            greatest: self.greatest,
            first: self.first,
            last: self.last,
            points,
        })
    }
}

// Notes where a body leads.
fn note(points: &mut PointSums, body: &Body) -> Result<(), AllocError>
    ensures { OnOk result (points_in points.new ≡ with_point body.now (points_in points.old)) }
{
    match body {
        Body::Far(pointer) => add_point(points, pointer.segment, pointer.length),
        _ => Ok(()),
    }
}

// Notes a key behind the last one, where it is another.
fn note_key(keys: &mut Vec<Hashes>, last: &[u8], key: &[u8]) -> Result<(), AllocError>
    ensures { OnOk result (keys.new.items
        ≡ (if eq_by_cmp key_cmp last.now key.now then keys.old.items else keys.old.items ++ hashes_of key.now ∷ [])) }
{
    if key_order(last, key).is_eq() {
        return Ok(());
    }
    keys.push(Hashes::of(key))?;
    Ok(())
}
