// Laws of the definitions: each is the contract of a function that does nothing.
ghost use Rattle.std.specs.Prelude.{◌≡◌, ◌≤◌, ◌∷◌, [], List, ℕ, ◌<◌, ◌^◌, ◌++◌, length};
ghost use Rattle.vl_model.specs.declared.entry.Entry.{Entry};
ghost use Rattle.vl_table.specs.body.Blocks.{SpellsBlock};
ghost use Rattle.vl_table.specs.body.Footer.{Foot, SpellsFooter};
ghost use Rattle.vl_table.specs.body.Index.{SpellsIndex};
ghost use Rattle.vl_table.specs.declared.body.index.BlockPlace.{BlockPlace};
ghost use Rattle.vl_model.specs.Cutting.{blocks, points_of, table_length, with_point};
ghost use Rattle.vl_table.specs.body.Bytes.{AreTabled, block_places, foot, table_bytes, IsTable};
ghost use Rattle.vl_table.specs.BlockOrder.{TableBreaksAt};
ghost use Rattle.vl_table.specs.Kept.{StandsBlock};
ghost use Rattle.vl_table.specs.Seeks.{IsBadBlock};
ghost use Rattle.vl_table.specs.Standing.{standing_entries};
ghost use Rattle.vl_table.specs.declared.table.Table.{Table};
ghost use Rattle.vl_model.specs.Formats.{table_format};
ghost use Rattle.vl_table.specs.Opening.{IsDamaged, IsRead, Said, said_of};
ghost use Rattle.vl_table.specs.Tables.{IsOf, number_of, shape_of};
ghost use Rattle.vl_table.specs.Worked.{filtered_bytes, two_entries, worked_bytes};

use vl_disk::HeldFile;

/// A body spells one block, one index and one footer at most.
pub fn bodies_are_read_in_one_way()
    ensures block { (format : ℕ) (body : List ℕ) (es fs : List Entry)
        → SpellsBlock format body es → SpellsBlock format body fs → es ≡ fs }
    ensures index { (body : List ℕ) (ps qs : List BlockPlace) → SpellsIndex body ps → SpellsIndex body qs → ps ≡ qs }
    ensures footer { (format : ℕ) (body : List ℕ) (f g : Foot)
        → SpellsFooter format body f → SpellsFooter format body g → f ≡ g }
{}

/// The whole bytes of a table with a short value and one whose record stands in a log.
pub fn a_worked_table()
    ensures first { table_bytes 1 1 (two_entries 105 73) ≡ worked_bytes }
    ensures last { table_bytes 3 1 (two_entries 106 74) ≡ filtered_bytes }
{}

/// A table is as long as the layout says.
pub fn tables_have_their_length()
    ensures { (format number : ℕ) (es : List Entry) → length (table_bytes format number es) ≡ table_length format es }
{}

/// What a table says is read in one way, and then it isn't damaged.
pub fn tables_are_read_in_one_way()
    ensures one { (number : ℕ) (bytes : List ℕ) (said other : Said)
        → IsRead number bytes said → IsRead number bytes other → said ≡ other }
    ensures whole { (number : ℕ) (bytes : List ℕ) (said : Said) (place : ℕ)
        → IsRead number bytes said → IsDamaged number bytes place → ⊥ }
{}

/// The bytes of a table are read as its footer and its blocks.
pub fn true_tables_are_read()
    ensures { (format number : ℕ) (es : List Entry) → 1 ≤ format → format ≤ table_format → IsTable format number es
        → IsRead number (table_bytes format number es) (said_of format es) }
{}

/// Of a block that stands what a cursor is told are its entries, and where none stands there are none.
pub fn blocks_have_what_stands()
    ensures stands { (format number : ℕ) (bytes : List ℕ) (p : BlockPlace) (es : List Entry)
        → StandsBlock format number bytes p.place p.length es → standing_entries format number bytes p ≡ es }
    ensures none { (format number : ℕ) (bytes : List ℕ) (p : BlockPlace)
        → ((es : List Entry) → StandsBlock format number bytes p.place p.length es → ⊥)
        → standing_entries format number bytes p ≡ [] }
{}

/// In a true table each block stands where the index says.
pub fn true_tables_have_no_bad_block<H: HeldFile>()
    ensures { (table : Table H) (es : List Entry) (damage : ℕ) → IsOf H.bytes table es
        → IsBadBlock (shape_of table) (table_bytes (shape_of table).format (number_of table) es) damage → ⊥ }
{}

/// And they are in order.
pub fn true_tables_are_in_order<H: HeldFile>()
    ensures { (table : Table H) (es : List Entry) (place : ℕ) → IsOf H.bytes table es → TableBreaksAt H.bytes table place → ⊥ }
{}
