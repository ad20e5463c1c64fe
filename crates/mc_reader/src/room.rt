//! Appending to buffers of a fixed capacity.
ghost use Rattle.std.specs.Prelude.{◌≡◌, ◌+◌, ◌-◌, ◌≤◌, ◌++◌, length, take, drop, min};
ghost use Rattle.std.specs.Vec.{vec_len, vec_capacity};

/// Appends bytes of the piece up to `limit` bytes in all, and returns their number. Allocates
/// nothing.
pub(crate) fn append(bytes: &mut Vec<u8>, limit: usize, piece: &[u8]) -> usize
    requires within { vec_len bytes.old ≤ limit }
    requires room { limit ≤ vec_capacity bytes.old }
    ensures count { result ≡ min (limit - vec_len bytes.old) (length piece.now) }
    ensures items { bytes.new.items ≡ bytes.old.items ++ take result piece.now }
    ensures len { vec_len bytes.new ≡ vec_len bytes.old + result }
    ensures capacity { vec_capacity bytes.old ≤ vec_capacity bytes.new }
{
    let count = (limit - bytes.len()).min(piece.len());
    let (front, _) = piece.split_at(count);
    let _ = bytes.extend_from_slice(front);
    count
}

/// Removes the first `count` bytes and moves the rest to the front.
pub(crate) fn remove_front(bytes: &mut Vec<u8>, count: usize)
    requires { count ≤ vec_len bytes.old }
    ensures items { bytes.new.items ≡ drop count bytes.old.items }
    ensures len { vec_len bytes.new + count ≡ vec_len bytes.old }
    ensures capacity { vec_capacity bytes.new ≡ vec_capacity bytes.old }
{
    bytes.copy_within(count.., 0);
    bytes.truncate(bytes.len() - count);
}
