// Parts of a slice.

// The first so many bytes: all of them where there are no more.
pub fn first_bytes(bytes: &[u8], count: usize) -> &[u8] {
    bytes.get(..count).unwrap_or(bytes)
}

// The bytes from a place on: none where it lies past the end.
pub fn bytes_from(bytes: &[u8], at: usize) -> &[u8] {
    bytes.get(at..).unwrap_or(&[])
}
