ghost use Rattle.std.specs.Prelude.{◌≡◌};
ghost use Rattle.vl_script.specs.Numbers.{number_of};

/// The number that a word spells in decimal, without a sign or leading zeros, where it isn't over a limit.
pub fn parse_number(word: &[u8], most: u64) -> Option<u64>
    ensures { result ≡ number_of most word.now }
{
    let Ok(word) = str::from_utf8(word) else {
        return None;
    };
    spelled(word, most)
}

fn spelled(word: &str, most: u64) -> Option<u64>
    ensures { result ≡ number_of most word.now }
{
    let number = word.parse::<u64>().ok()?;
    let mut digits = itoa::Buffer::new();
    if digits.format(number).as_bytes() != word.as_bytes() || number > most {
        return None;
    }
    Some(number)
}
