ghost use Rattle.std.specs.Prelude.{◌≡◌, ◌+◌, ◌<◌, ◌≤◌, IfNone, IfSome};
ghost use Rattle.vl_table.specs.Stretches.{IsNextOn};

use vl_model::Way;

/// Positions that follow one another. A way goes through them from one of their ends.
#[derive(Clone, Copy)]
pub struct Stretch {
    pub first: usize,
    pub end: usize,
}

impl Stretch {
    /// The next position on a way, and the others behind it; None where none is left.
    pub fn next(self, way: Way) -> Option<(usize, Stretch)>
        ensures found { IfSome result (λ r. IsNextOn way self r.0 r.1) }
        ensures none { IfNone result (self.end ≤ self.first) }
    {
        let Stretch { first, end } = self;
        if first >= end {
            return None;
        }
        match way {
            Way::Up => Some((
                first,
                Stretch {
                    first: first + 1,
                    end,
                },
            )),
            Way::Down => Some((
                end - 1,
                Stretch {
                    first,
                    end: end - 1,
                },
            )),
        }
    }
}
