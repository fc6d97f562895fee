// The bytes of a file that was read.
ghost use Rattle.std.specs.Prelude.{◌≤◌, length};

use cacao_site::Bytes;

/// The bytes of a file of at most 1,048,576 bytes, with its name.
#[derive(Drop)]
pub struct FileText<'w> {
    pub name: &'w str,
    pub bytes: Bytes,
    pub ghost within: { length bytes ≤ 1048576 },
}
