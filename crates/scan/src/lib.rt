// A search for a byte in a slice.
#![tactic(auto)]

ghost use Rattle.std.specs.Prelude.{◌≡◌, ◌<◌, length, IfSome};
ghost use Rattle.scan.specs.Bytes.{place_of};

// The place of the first `byte`, if there is one.
pub fn find(s: &[u8], byte: u8) -> Option<usize>
    ensures place { result ≡ place_of byte s.now }
    ensures bound { IfSome result (λ i. i < length s.now) }
{
    s.iter().position(|b| *b == byte)
}
