// Parts of buffers.
ghost use Rattle.std.specs.Prelude.{◌≡◌, ◌≤◌, ◌-◌, ◌++◌, length, take, drop, replicate};

pub(crate) fn copy_front(into: &mut [u8], bytes: &[u8])
    requires { length bytes.now ≤ length into.old }
    ensures { into.new ≡ bytes.now ++ drop (length bytes.now) into.old }
{
    into[..bytes.len()].copy_from_slice(bytes);
}

pub(crate) fn clear_from(into: &mut [u8], from: usize)
    requires { from ≤ length into.old }
    ensures { into.new ≡ take from into.old ++ replicate (length into.old - from) 0 }
{
    into[from..].fill(0);
}
