//! Copies of short pieces.
ghost use Rattle.std.specs.Prelude.{◌≡◌, ◌+◌, ◌≤◌, length};

/// Copies a piece over as many bytes. A call costs more than a copy of a few bytes, so a short piece is copied by two words, which
/// may overlap.
#[inline(always)]
pub fn copy_short(target: &mut [u8], piece: &[u8])
    requires { length target.old ≡ length piece.now }
    ensures { target.new ≡ piece.now }
{
    let len = piece.len();
    if len < 4 || len > 32 {
        target.copy_from_slice(piece);
    } else if len <= 8 {
        copy_ends::<4>(target, piece);
    } else if len <= 16 {
        copy_ends::<8>(target, piece);
    } else {
        copy_ends::<16>(target, piece);
    }
}

// Copies a piece by its first bytes and its last ones.
#[inline(always)]
fn copy_ends<const N: usize>(target: &mut [u8], piece: &[u8])
    requires same { length target.old ≡ length piece.now }
    requires fits { N ≤ length piece.now }
    requires meet { length piece.now ≤ N + N }
    ensures { target.new ≡ piece.now }
{
    let last = piece.len() - N;
    let mut front = [0; N];
    front.copy_from_slice(&piece[..N]);
    let mut back = [0; N];
    back.copy_from_slice(&piece[last..]);
    target[..N].copy_from_slice(&front);
    target[last..].copy_from_slice(&back);
}
