// Laws of a benchmark's lines: each is the contract of a function that does nothing.
ghost use Rattle.std.specs.Prelude.{◌≡◌, ◌∷◌, [], codes, replicate};
ghost use Rattle.vl_script.specs.Generator.{bench_lines, last_lines};
ghost use Rattle.vl_script.specs.declared.line.Line.TheVariants.{Begin, Commit, Set};

/// The benchmark of one round from seed 0. The round's number is 1,442,695,040,888,963,407.
pub fn a_worked_benchmark()
    ensures { bench_lines 0 1 ≡ Begin (codes "t") ∷ Set (codes "t") (0x01 ∷ 0xbf ∷ []) (replicate 123 1)
        ∷ Commit (codes "t") ∷ last_lines }
{}
