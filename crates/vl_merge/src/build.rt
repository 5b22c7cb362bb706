ghost use Rattle.std.specs.Prelude.{◌≡◌, ◌≤◌, ◌++◌, vec_len, IfOk};
ghost use Rattle.vl_merge.specs.Built.{IsBuiltOf, TakesOff};

use crate::lookahead::Lookahead;
use crate::tree::Tree;
use std::alloc::AllocError;

// A tree of these sources, of which no entry is read.
pub fn build_tree<C: Drop>(sources: Vec<C>) -> Result<Tree<C>, AllocError>
    ensures { IfOk result (λ tree. IsBuiltOf sources.items tree) }
{
    let mut rest = sources;
    let count = rest.len();
    build_last(&mut rest, count)
}

// A tree of the last so many of these sources, which it takes off them.
fn build_last<C: Drop>(sources: &mut Vec<C>, count: usize) -> Result<Tree<C>, AllocError>
    requires { count ≤ vec_len sources.old }
    ensures { IfOk result (λ tree. TakesOff sources.old.items sources.new.items count tree) }
{
    if count == 0 {
        return Ok(Tree::Nothing);
    }
    if count == 1 {
        return Ok(match sources.pop() {
            Some(source) => Tree::Source(source),
            None => Tree::Nothing,
        });
    }
    let half = count / 2;
    let older = build_last(sources, half)?;
    let newer = build_last(sources, count - half)?;
    let alloc = *sources.allocator();
    Ok(Tree::Two(
        Box::new(alloc, newer)?,
        Lookahead::Unread,
        Box::new(alloc, older)?,
        Lookahead::Unread,
    ))
}
