// Lists by number, where what isn't there reads as 0 and isn't written.

use arrayvec::ArrayVec;

pub(crate) fn number_at(list: &[u32], place: u32) -> u32 {
    match list.get(place as usize) {
        Some(number) => *number,
        None => 0,
    }
}

pub(crate) fn put_number(list: &mut [u32], place: u32, number: u32) {
    if let Some(entry) = list.get_mut(place as usize) {
        *entry = number;
    }
}

/// The first of these numbers, as many as there is room for.
pub(crate) fn copied<const N: usize>(numbers: &[u32]) -> ArrayVec<u32, N> {
    let mut copy = ArrayVec::new();
    for number in numbers {
        if !copy.is_full() {
            copy.push(*number);
        }
    }
    copy
}

pub(crate) fn has(numbers: &[u32], number: u32) -> bool {
    numbers.iter().any(|one| *one == number)
}
