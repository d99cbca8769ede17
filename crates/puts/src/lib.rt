// Bytes put into a lent room, one after the other.
#![tactic(auto)]

ghost use Rattle.std.specs.Prelude.{◌≡◌, ◌+◌, ◌≤◌, length};
ghost use Rattle.std.proofs.lemmas.List.Edits.{sets};

// Puts the bytes of a slice from a place on. It asks that they fit: only writers that tested the room once call it.
pub fn put_bytes(room: &mut [u8], at: usize, bytes: &[u8])
    requires { at + length bytes.now ≤ length room.old }
    ensures { room.new ≡ sets room.old at bytes.now }
{
    // Not `copy_from_slice`: that would be `memmove`, and the archive needs nothing from outside but `memset`.
    for (i, byte) in bytes.iter().enumerate() {
        room[at + i] = *byte;
    }
}
