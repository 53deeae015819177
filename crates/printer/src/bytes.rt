// Bytes.
ghost use Rattle.std.specs.Prelude.{◌≡◌, [], ◌∷◌, ◌+◌, ◌≤◌, leb, length};
ghost use Rattle.std.proofs.Math.Seq.{paste};
ghost use Rattle.printer.specs.Put.{put_in, place_after};

// Whether there is room for n bytes at the place `at`.
pub fn has_room(out: &[u8], at: usize, n: usize) -> bool
    ensures { result ≡ leb (at + n) (length out.now) }
{
    at <= out.len() && n <= out.len() - at
}

pub fn put_bytes(out: &mut [u8], at: usize, text: &[u8]) -> usize
    ensures place { result ≡ place_after (length out.old) at (length text.now) }
    ensures put { out.new ≡ put_in out.old at text.now }
{
    if !has_room(out, at, text.len()) {
        return out.len();
    }
    let end = at + text.len();
    out[at..end].copy_from_slice(text);
    end
}

pub fn put_byte(out: &mut [u8], at: usize, byte: u8) -> usize
    ensures place { result ≡ place_after (length out.old) at 1 }
    ensures put { out.new ≡ put_in out.old at (byte ∷ []) }
{
    if at < out.len() {
        out[at] = byte;
        return at + 1;
    }
    out.len()
}
