//! Images and exchanges of names.
use groups::renaming::Renaming;

/// `image G NAME`, without its first word.
pub fn image(text: &str) -> Option<u8> {
    let (bits, name) = text.split_once(' ')?;
    let bits = u64::from_str_radix(bits, 16).ok()?;
    Some(Renaming { bits }.image(name.parse::<u8>().ok()?))
}

/// `exchange NAME NAME`, without its first word.
pub fn exchange(text: &str) -> Option<Renaming> {
    let (a, b) = text.split_once(' ')?;
    Some(Renaming::exchange(a.parse::<u8>().ok()?, b.parse::<u8>().ok()?))
}
