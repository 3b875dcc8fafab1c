ghost use Rattle.std.specs.Prelude.{◌≡◌};
ghost use Rattle.std.specs.List.{list_all};
ghost use Rattle.dv_questions.specs.Names.{is_letter, is_mark, is_character, is_name, names_one};

use dv_forms::versions::MARKS_SINCE;

fn is_letter(byte: u8) -> bool
    ensures { result ≡ is_letter byte }
{
    matches!(byte, b'A'..=b'Z' | b'a'..=b'z' | b'0'..=b'9' | b'_')
}

fn is_mark(byte: u8) -> bool
    ensures { result ≡ is_mark byte }
{
    matches!(byte, b'-' | b'.' | b':')
}

fn is_character(version: u32, byte: u8) -> bool
    ensures { result ≡ is_character version byte }
{
    is_letter(byte) || (MARKS_SINCE <= version && is_mark(byte))
}

fn are_characters(version: u32, bytes: &[u8]) -> bool
    ensures { result ≡ list_all (is_character version) bytes.now }
{
    bytes.iter().all(|byte| is_character(version, *byte))
}

/// Whether a name has the form of one of this version: 1 to 32 letters, digits and `_`, and from
/// version 3 on `-`, `.` and `:` after the first.
#[tactic(auto, unfolding(crate::specs::Names::is_name))]
pub fn is_name(version: u32, name: &str) -> bool
    ensures { result ≡ is_name version name.now }
{
    let Some((first, rest)) = name.as_bytes().split_first() else {
        return false;
    };
    rest.len() <= 31 && is_letter(*first) && are_characters(version, rest)
}

/// Whether a name may be that of a Deferred that is there.
#[tactic(auto, unfolding(crate::specs::Names::names_one))]
pub fn names_one(version: u32, name: &str) -> bool
    ensures { result ≡ names_one version name.now }
{
    name == "@" || is_name(version, name)
}
