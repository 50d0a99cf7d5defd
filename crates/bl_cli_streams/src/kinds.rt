//! What stands at a path. These words are tested.

use std::fs::FileType;
use std::os::unix::fs::FileTypeExt;

/// What kind of file it is, in words.
pub(crate) fn kind_of(kind: FileType) -> &'static str {
    if kind.is_file() {
        "a regular file"
    } else if kind.is_dir() {
        "a folder"
    } else if kind.is_symlink() {
        "a symbolic link"
    } else if kind.is_fifo() {
        "a pipe"
    } else if kind.is_socket() {
        "a socket"
    } else {
        "a device"
    }
}
