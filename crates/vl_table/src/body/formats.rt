//! What differs between the formats of tables.

ghost use Rattle.std.specs.Prelude.{◌≡◌};
ghost use Rattle.vl_model.specs.Formats as formats;

/// Whether tables of a format have tags beside short values.
pub fn has_tags(format: u32) -> bool
    ensures { result ≡ formats.has_tags format }
{
    2 <= format
}

/// Whether tables of a format have a filter.
pub fn has_filter(format: u32) -> bool
    ensures { result ≡ formats.has_filter format }
{
    3 <= format
}
