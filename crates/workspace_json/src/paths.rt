ghost use Rattle.std.specs.Prelude.{◌≡◌, IfOk, is_some};
ghost use Rattle.std.specs.Char.{is_ascii_digit};
ghost use Rattle.std.specs.List.{list_all};
ghost use Rattle.workspace_json.specs.Paths.{is_numeral, number_in, height_in, path_in};

use diagram_terms::{Height, Items};
use std::alloc::{AllocError, Global};

fn are_digits(bytes: &[u8]) -> bool
    ensures { result ≡ list_all is_ascii_digit bytes.now }
{
    bytes.iter().all(|byte| byte.is_ascii_digit())
}

fn is_numeral(bytes: &[u8]) -> bool
    ensures { result ≡ is_numeral bytes.now }
{
    match bytes {
        [] => false,
        [first, rest @ ..] => are_digits(bytes) && (*first != b'0' || rest.is_empty()),
    }
}

/// The number that digits are. `parse` alone would take a sign and leading zeros.
fn number_in(digits: &str) -> Option<usize>
    ensures { result ≡ number_in digits.now }
{
    if !is_numeral(digits.as_bytes()) {
        return None;
    }
    match digits.parse::<u32>() {
        Ok(number) => Some(number as usize),
        Err(_) => None,
    }
}

/// The height that a word is: `r` and the number of a regular height, or `s` and the number of a
/// singular one, counted from 0 and below 2^32, in decimal digits without a leading zero. None where the
/// word is none. It takes no memory.
pub fn height_of(word: &str) -> Option<Height>
    ensures { result ≡ height_in word.now }
{
    if let Some(digits) = word.strip_prefix('r') {
        Some(Height::R(number_in(digits)?))
    } else if let Some(digits) = word.strip_prefix('s') {
        Some(Height::S(number_in(digits)?))
    } else {
        None
    }
}

/// Whether a word is a path, as `path_of` reads it. It takes no memory.
pub fn is_path(word: &str) -> bool
    ensures { result ≡ is_some (path_in word.now) }
{
    word == "." || word.split(',').all(|step| height_of(step).is_some())
}

/// The path that a word is: `.` for the empty one, or heights with one comma between them, outermost
/// first. None where the word is none; the error is want of memory.
pub fn path_of(alloc: Global, word: &str) -> Result<Option<Items<Height>>, AllocError>
    ensures { IfOk result (λ path. path ≡ path_in word.now) }
{
    let mut path = Items::new(alloc);
    if word == "." {
        return Ok(Some(path));
    }
    for step in word.split(',') {
        let Some(height) = height_of(step) else {
            return Ok(None);
        };
        path.push(height)?;
    }
    Ok(Some(path))
}
