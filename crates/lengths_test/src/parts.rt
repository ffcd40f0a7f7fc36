// The first part of a slice: all of it where it has no more elements.
pub fn first_part<T>(list: &[T], count: usize) -> &[T] {
    &list[..count.min(list.len())]
}
