//! Copying bytes that mostly are few.
ghost use Rattle.std.specs.Prelude.{◌≡◌, ◌+◌, ◌≤◌, length};

/// Copies bytes by two moves of this width, of the first ones and of the last ones.
#[inline(always)]
fn copy_both(to: &mut [u8], from: &[u8], width: usize)
    requires same { length to.old ≡ length from.now }
    requires within { width ≤ length from.now }
    requires covered { length from.now ≤ width + width }
    ensures { to.new ≡ from.now }
{
    let rest = from.len() - width;
    to[..width].copy_from_slice(&from[..width]);
    to[rest..].copy_from_slice(&from[rest..]);
}

/// Copies bytes. Of a few the compiler knows how many it moves at once, so that it calls nothing.
#[inline(always)]
pub(crate) fn copy(to: &mut [u8], from: &[u8])
    requires { length to.old ≡ length from.now }
    ensures { to.new ≡ from.now }
{
    let len = from.len();
    if len > 16 {
        to.copy_from_slice(from);
    } else if len >= 8 {
        copy_both(to, from, 8);
    } else if len >= 4 {
        copy_both(to, from, 4);
    } else if len >= 2 {
        copy_both(to, from, 2);
    } else if len == 1 {
        to[0] = from[0];
    }
}
