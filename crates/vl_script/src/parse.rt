ghost use Rattle.std.specs.Prelude.{◌≡◌, ◌∷◌, [], ◌&&◌, ◌<◌, ◌≤◌, length, nat_le, IfOk, IfSome, MatchOption};
ghost use Rattle.std.specs.List.{list_all};
ghost use Rattle.std.specs.Option.{option_map_or};
ghost use Rattle.vl_script.specs.Script.{longest_ident, is_ident_byte, ident_of, bytes_of, words_of, line_of};
ghost use Rattle.vl_script.specs.Script.{alone, ident_alone, named_key, ident_and_key, ident_and_two, ident_and_number, with_number};
ghost use Rattle.vl_script.specs.Script.{set_of, set_tagged_of, get_at_of, scan_of, keep_of, pick_of, drain_of, upkeep_of};

use crate::digits::decode;
use crate::{Ident, Line, MAX_IDENT_BYTES, MAX_LINE_BYTES, find_byte, parse_number};
use std::alloc::{AllocError, Global};
use vl_model::{Bytes, Way};

/// The line that these bytes are, without the line's end; `None` where they are no line of the language.
pub fn parse_line(alloc: Global, text: &[u8]) -> Result<Option<Line>, AllocError>
    ensures { IfOk result (λ line. line ≡ line_of text.now) }
{
    if text.len() > MAX_LINE_BYTES {
        return Ok(None);
    }
    let (command, rest) = next_word(text);
    if command == b"begin".as_slice() {
        Ok(parse_ident_alone(alloc, rest)?.map(|name| Line::Begin { name }))
    } else if command == b"view".as_slice() {
        Ok(parse_ident_alone(alloc, rest)?.map(|name| Line::View { name }))
    } else if command == b"get".as_slice() {
        Ok(parse_ident_and_key(alloc, rest)?.map(|(name, key)| Line::Get { name, key }))
    } else if command == b"set".as_slice() {
        parse_set(alloc, rest)
    } else if command == b"setb".as_slice() {
        parse_set_tagged(alloc, rest)
    } else if command == b"getb".as_slice() {
        Ok(parse_ident_and_key(alloc, rest)?.map(|(name, key)| Line::GetTagged { name, key }))
    } else if command == b"getat".as_slice() {
        parse_get_at(alloc, rest)
    } else if command == b"scan".as_slice() {
        parse_scan(alloc, rest, Way::Up)
    } else if command == b"rscan".as_slice() {
        parse_scan(alloc, rest, Way::Down)
    } else if command == b"del".as_slice() {
        Ok(parse_ident_and_key(alloc, rest)?.map(|(name, key)| Line::Delete { name, key }))
    } else if command == b"commit".as_slice() {
        Ok(parse_ident_alone(alloc, rest)?.map(|name| Line::Commit { name }))
    } else if command == b"drop".as_slice() {
        Ok(parse_ident_alone(alloc, rest)?.map(|name| Line::Drop { name }))
    } else {
        parse_upkeep(alloc, command, rest)
    }
}

// A line that keeps the store's files: seals, tables, merges, passes and what is removed.
fn parse_upkeep(
    alloc: Global,
    command: &[u8],
    rest: Option<&[u8]>,
) -> Result<Option<Line>, AllocError>
    ensures { IfOk result (λ line. line ≡ upkeep_of command.now (option_map_or (λ rest. words_of rest.now) rest.entry [])) }
{
    if command == b"rotate".as_slice() {
        Ok(parse_alone(rest, Line::Rotate))
    } else if command == b"flush".as_slice() {
        Ok(parse_alone(rest, Line::Flush))
    } else if command == b"keep".as_slice() {
        Ok(parse_keep(rest))
    } else if command == b"plan".as_slice() {
        Ok(parse_ident_alone(alloc, rest)?.map(|name| Line::Plan { name }))
    } else if command == b"drain".as_slice() {
        parse_drain(alloc, rest)
    } else if command == b"install".as_slice() {
        Ok(parse_ident_alone(alloc, rest)?.map(|name| Line::Install { name }))
    } else if command == b"sweep".as_slice() {
        Ok(parse_alone(rest, Line::Sweep))
    } else if command == b"stats".as_slice() {
        Ok(parse_alone(rest, Line::Stats))
    } else if command == b"pick".as_slice() {
        parse_pick(alloc, rest)
    } else if command == b"batch".as_slice() {
        Ok(parse_ident_alone(alloc, rest)?.map(|name| Line::Batch { name }))
    } else if command == b"move".as_slice() {
        Ok(parse_ident_alone(alloc, rest)?.map(|name| Line::Move { name }))
    } else {
        Ok(None)
    }
}

// The first word, and what is behind the space that ends it.
fn next_word(text: &[u8]) -> (&[u8], Option<&[u8]>)
    ensures { words_of text.now ≡ result.0.now ∷ option_map_or (λ rest. words_of rest.now) result.1 [] }
{
    match find_byte(b' ', text) {
        Some(end) => (&text[..end], Some(&text[end + 1..])),
        None => (text, None),
    }
}

// A line of its command alone.
#[tactic(auto, using(crate::proofs::ScriptWords::alone_of_more))]
fn parse_alone(rest: Option<&[u8]>, line: Line) -> Option<Line>
    ensures { result ≡ alone line (option_map_or (λ rest. words_of rest.now) rest.entry []) }
{
    if rest.is_some() {
        return None;
    }
    Some(line)
}

#[tactic(auto, using(crate::proofs::ScriptWords::ident_alone_of_more))]
fn parse_ident_alone(alloc: Global, rest: Option<&[u8]>) -> Result<Option<Ident>, AllocError>
    ensures { IfOk result (λ name. name ≡ ident_alone (option_map_or (λ rest. words_of rest.now) rest.entry [])) }
{
    let Some((name, rest)) = rest.map(next_word) else {
        return Ok(None);
    };
    if rest.is_some() {
        return Ok(None);
    }
    parse_ident(alloc, name)
}

#[tactic(auto, using(crate::proofs::ScriptWords::ident_and_key_of_more))]
fn parse_ident_and_key(
    alloc: Global,
    rest: Option<&[u8]>,
) -> Result<Option<(Ident, Bytes)>, AllocError>
    ensures { IfOk result (λ words. words ≡ ident_and_key (option_map_or (λ rest. words_of rest.now) rest.entry [])) }
{
    let Some((name, Some(rest))) = rest.map(next_word) else {
        return Ok(None);
    };
    let (key, rest) = next_word(rest);
    if rest.is_some() {
        return Ok(None);
    }
    parse_named_key(alloc, name, key)
}

fn parse_named_key(
    alloc: Global,
    name: &[u8],
    key: &[u8],
) -> Result<Option<(Ident, Bytes)>, AllocError>
    ensures { IfOk result (λ words. words ≡ named_key name.now key.now) }
{
    let Some(name) = parse_ident(alloc, name)? else {
        return Ok(None);
    };
    let Some(key) = parse_bytes(alloc, key)? else {
        return Ok(None);
    };
    Ok(Some((name, key)))
}

#[tactic(auto, using(crate::proofs::ScriptWords::get_at_of_more))]
fn parse_get_at(alloc: Global, rest: Option<&[u8]>) -> Result<Option<Line>, AllocError>
    ensures { IfOk result (λ line. line ≡ get_at_of (option_map_or (λ rest. words_of rest.now) rest.entry [])) }
{
    let Some((name, key, number, None)) = three_words(rest) else {
        return Ok(None);
    };
    let Some(number) = parse_number(number, u64::MAX) else {
        return Ok(None);
    };
    let words = parse_named_key(alloc, name, key)?;
    Ok(words.map(|(name, key)| Line::GetAt { name, key, number }))
}

#[tactic(auto, using(crate::proofs::ScriptWords::keep_of_more))]
fn parse_keep(rest: Option<&[u8]>) -> Option<Line>
    ensures { result ≡ keep_of (option_map_or (λ rest. words_of rest.now) rest.entry []) }
{
    let (number, None) = next_word(rest?) else {
        return None;
    };
    let versions = parse_number(number, 255)?;
    Some(Line::Keep {
        versions: versions as u8,
    })
}

fn parse_pick(alloc: Global, rest: Option<&[u8]>) -> Result<Option<Line>, AllocError>
    ensures { IfOk result (λ line. line ≡ pick_of (option_map_or (λ rest. words_of rest.now) rest.entry [])) }
{
    let words = parse_ident_and_number(alloc, rest, 255)?;
    Ok(words.map(|(name, percent)| Line::Pick {
        name,
        percent: percent as u8,
    }))
}

fn parse_drain(alloc: Global, rest: Option<&[u8]>) -> Result<Option<Line>, AllocError>
    ensures { IfOk result (λ line. line ≡ drain_of (option_map_or (λ rest. words_of rest.now) rest.entry [])) }
{
    let words = parse_ident_and_number(alloc, rest, u64::from(u32::MAX))?;
    Ok(words.map(|(name, segment)| Line::Drain {
        name,
        segment: segment as u32,
    }))
}

// A name, and a number that isn't over a limit.
#[tactic(auto, using(crate::proofs::ScriptWords::ident_and_number_of_more))]
fn parse_ident_and_number(
    alloc: Global,
    rest: Option<&[u8]>,
    most: u64,
) -> Result<Option<(Ident, u64)>, AllocError>
    ensures words { IfOk result (λ words. words ≡ ident_and_number most (option_map_or (λ rest. words_of rest.now) rest.entry [])) }
    ensures within { IfOk result (λ words. IfSome words (λ w. w.1 ≤ most)) }
{
    let Some((name, Some(rest))) = rest.map(next_word) else {
        return Ok(None);
    };
    let (number, None) = next_word(rest) else {
        return Ok(None);
    };
    let Some(number) = parse_number(number, most) else {
        return Ok(None);
    };
    let name = parse_ident(alloc, name)?;
    Ok(name.map(|name| (name, number)))
}

#[tactic(auto, using(crate::proofs::ScriptWords::set_of_more))]
fn parse_set(alloc: Global, rest: Option<&[u8]>) -> Result<Option<Line>, AllocError>
    ensures { IfOk result (λ line. line ≡ set_of (option_map_or (λ rest. words_of rest.now) rest.entry [])) }
{
    let Some((name, key, value, None)) = three_words(rest) else {
        return Ok(None);
    };
    let words = parse_ident_and_two(alloc, name, key, value)?;
    Ok(words.map(|(name, key, value)| Line::Set { name, key, value }))
}

// Like `set`, with a tag behind the value.
fn parse_set_tagged(alloc: Global, rest: Option<&[u8]>) -> Result<Option<Line>, AllocError>
    ensures { IfOk result (λ line. line ≡ set_tagged_of (option_map_or (λ rest. words_of rest.now) rest.entry [])) }
{
    let words = parse_with_number(alloc, rest, 255)?;
    Ok(words.map(|(name, key, value, tag)| Line::SetTagged {
        name,
        key,
        value,
        tag: tag as u8,
    }))
}

fn parse_scan(alloc: Global, rest: Option<&[u8]>, way: Way) -> Result<Option<Line>, AllocError>
    ensures { IfOk result (λ line. line ≡ scan_of way (option_map_or (λ rest. words_of rest.now) rest.entry [])) }
{
    let Some((name, low, high, limit)) = parse_with_number(alloc, rest, 65_535)? else {
        return Ok(None);
    };
    if limit == 0 {
        return Ok(None);
    }
    Ok(Some(Line::Scan {
        name,
        low,
        high,
        limit: limit as u16,
        way,
    }))
}

// A name, two strings of bytes and a number that isn't over a limit.
#[tactic(auto, using(crate::proofs::ScriptWords::with_number_of_more))]
fn parse_with_number(
    alloc: Global,
    rest: Option<&[u8]>,
    most: u64,
) -> Result<Option<(Ident, Bytes, Bytes, u64)>, AllocError>
    ensures words { IfOk result (λ words. words ≡ with_number most (option_map_or (λ rest. words_of rest.now) rest.entry [])) }
    ensures within { IfOk result (λ words. IfSome words (λ w. w.3 ≤ most)) }
{
    let Some((name, first, second, Some(rest))) = three_words(rest) else {
        return Ok(None);
    };
    let (number, None) = next_word(rest) else {
        return Ok(None);
    };
    let Some(number) = parse_number(number, most) else {
        return Ok(None);
    };
    let words = parse_ident_and_two(alloc, name, first, second)?;
    Ok(words.map(|(name, first, second)| (name, first, second, number)))
}

// The first three words, and what is behind the space that ends the third.
fn three_words(rest: Option<&[u8]>) -> Option<(&[u8], &[u8], &[u8], Option<&[u8]>)>
    ensures { let words = option_map_or (λ rest. words_of rest.now) rest.entry [] in
        MatchOption result (length words < 3)
        (λ w. words ≡ w.0.now ∷ w.1.now ∷ w.2.now ∷ option_map_or (λ rest. words_of rest.now) w.3 []) }
{
    let (first, rest) = next_word(rest?);
    let (second, rest) = next_word(rest?);
    let (third, rest) = next_word(rest?);
    Some((first, second, third, rest))
}

fn parse_ident_and_two(
    alloc: Global,
    name: &[u8],
    first: &[u8],
    second: &[u8],
) -> Result<Option<(Ident, Bytes, Bytes)>, AllocError>
    ensures { IfOk result (λ words. words ≡ ident_and_two name.now first.now second.now) }
{
    let Some(name) = parse_ident(alloc, name)? else {
        return Ok(None);
    };
    let Some(first) = parse_bytes(alloc, first)? else {
        return Ok(None);
    };
    let Some(second) = parse_bytes(alloc, second)? else {
        return Ok(None);
    };
    Ok(Some((name, first, second)))
}

fn parse_ident(alloc: Global, word: &[u8]) -> Result<Option<Ident>, AllocError>
    ensures { IfOk result (λ name. name ≡ ident_of word.now) }
{
    if is_ident(word) {
        Ok(Some(Ident::copy_of(alloc, word)?))
    } else {
        Ok(None)
    }
}

fn is_ident(word: &[u8]) -> bool
    ensures { result ≡ (nat_le 1 (length word.now) && nat_le (length word.now) longest_ident && list_all is_ident_byte word.now) }
{
    !word.is_empty()
        && word.len() <= MAX_IDENT_BYTES
        && word
            .iter()
            .all(|b| b.is_ascii_lowercase() || b.is_ascii_digit())
}

fn parse_bytes(alloc: Global, word: &[u8]) -> Result<Option<Bytes>, AllocError>
    ensures { IfOk result (λ bytes. bytes ≡ bytes_of word.now) }
{
    if word.is_empty() {
        return Ok(None);
    }
    if word == b"-".as_slice() {
        return Ok(Some(Bytes::new(Vec::new(alloc))?));
    }
    match decode(alloc, word)? {
        Some(bytes) => Ok(Some(Bytes::new(bytes)?)),
        None => Ok(None),
    }
}
