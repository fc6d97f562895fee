// The numbers and bytes of a journal's layout.
/// The most bytes of a file, and so of an image that stands for a list.
pub const MOST_IMAGE: u64 = 67_108_864;

/// The most bytes of an entry.
pub const MOST_ENTRY: usize = 17_829_888;

/// The bytes of the header.
pub const HEADER_SIZE: usize = 8;

/// The bytes of an entry's gate and of its length, which stand before it.
pub const HEAD_SIZE: usize = 5;

/// The header, which is `CACAOJ1` and a line feed, and a closed gate.
pub static BLANK: [u8; 9] = [67, 65, 67, 65, 79, 74, 49, 10, 0];
