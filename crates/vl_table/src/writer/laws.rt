// Laws of the definitions: each is the contract of a function that does nothing.
ghost use Rattle.std.specs.Prelude.{◌<◌, ◌^◌, ℕ, List};
ghost use Rattle.vl_model.specs.declared.entry.Entry.{Entry};
ghost use Rattle.vl_table.specs.body.Bytes.{AreTabled, IsTable};
ghost use Rattle.vl_model.specs.Cutting.{table_length};

/// Of lawful entries in order there is a table, where it isn't longer than four bytes can say.
pub fn tables_have_room()
    ensures { (format number : ℕ) (es : List Entry) → number < 2 ^ 32 → AreTabled format es
        → table_length format es < 2 ^ 32 → IsTable format number es }
{}
